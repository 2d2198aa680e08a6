//! Kinds that are told apart together, and whether a file has an item of such a group.
ghost use Rattle.std.specs.Prelude.{◌≡◌, ◌≤◌, ◌||◌, ◌&&◌, not, length, take};
ghost use Rattle.nz_system.specs.Groups.{includes, occurs};

use nz_input::{Items, Kind};

/// A group of kinds.
#[derive(Clone, Copy, PartialEq, Eq, Debug, Drop)]
pub enum Group {
    /// Those that make a file inhomogeneous.
    Leveled,
    /// Those that give generators.
    Generating,
    /// Those that take the place of the orthant.
    Bounding,
    Cone,
    ConeAndLattice,
    Vertices,
    Signs,
    StrictSigns,
    Grading,
    Ask,
    MonomialIdeal,
}

fn is_leveled(kind: Kind) -> bool
    ensures { result ≡ includes Group.Leveled kind }
{
    match kind {
        Kind::StrictSigns
        | Kind::StrictInequalities
        | Kind::InhomInequalities
        | Kind::InhomEquations
        | Kind::InhomCongruences
        | Kind::Vertices
        | Kind::MonomialIdeal => true,
        _ => false,
    }
}

fn is_generating(kind: Kind) -> bool
    ensures { result ≡ includes Group.Generating kind }
{
    match kind {
        Kind::Cone | Kind::ConeAndLattice | Kind::Vertices => true,
        _ => false,
    }
}

fn is_bounding(kind: Kind) -> bool
    ensures { result ≡ includes Group.Bounding kind }
{
    match kind {
        Kind::Cone
        | Kind::ConeAndLattice
        | Kind::Vertices
        | Kind::Inequalities
        | Kind::Signs
        | Kind::StrictSigns
        | Kind::StrictInequalities
        | Kind::InhomInequalities => true,
        _ => false,
    }
}

impl Group {
    /// Whether the kind is one of the group.
    pub(crate) fn includes(self, kind: Kind) -> bool
        ensures { result ≡ includes self kind }
    {
        match self {
            Group::Leveled => is_leveled(kind),
            Group::Generating => is_generating(kind),
            Group::Bounding => is_bounding(kind),
            Group::Cone => match kind {
                Kind::Cone => true,
                _ => false,
            },
            Group::ConeAndLattice => match kind {
                Kind::ConeAndLattice => true,
                _ => false,
            },
            Group::Vertices => match kind {
                Kind::Vertices => true,
                _ => false,
            },
            Group::Signs => match kind {
                Kind::Signs => true,
                _ => false,
            },
            Group::StrictSigns => match kind {
                Kind::StrictSigns => true,
                _ => false,
            },
            Group::Grading => match kind {
                Kind::Grading => true,
                _ => false,
            },
            Group::Ask => match kind {
                Kind::Ask => true,
                _ => false,
            },
            Group::MonomialIdeal => match kind {
                Kind::MonomialIdeal => true,
                _ => false,
            },
        }
    }
}

fn found_by(found: bool, group: Group, kind: Kind) -> bool
    ensures { result ≡ (found || includes group kind) }
{
    found || group.includes(kind)
}

/// Whether an item of the group stands among the first items.
pub fn occurs(group: Group, items: &Items, count: usize) -> bool
    requires { count ≤ length items.now }
    ensures { result ≡ occurs group (take count items.now) }
{
    let mut found = false;
    for place in 0..count {
        found = found_by(found, group, items.at(place).kind);
    }
    found
}

/// Whether an item of the group stands among all.
pub fn stands(group: Group, items: &Items) -> bool
    ensures { result ≡ occurs group items.now }
{
    occurs(group, items, items.len())
}

/// Whether an item of the one group stands among all, and none of the other.
pub(crate) fn stands_without(group: Group, other: Group, items: &Items) -> bool
    ensures { result ≡ (occurs group items.now && not (occurs other items.now)) }
{
    stands(group, items) && !stands(other, items)
}

/// Whether an item of one of the groups stands among all.
pub(crate) fn either_stands(group: Group, other: Group, items: &Items) -> bool
    ensures { result ≡ (occurs group items.now || occurs other items.now) }
{
    stands(group, items) || stands(other, items)
}
