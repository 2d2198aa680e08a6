//! The goals and the mode.
ghost use Rattle.std.specs.Prelude.{◌≡◌, ◌||◌, ◌++◌};
ghost use Rattle.nz_system.specs.Asked.{is_goal, names, mode_of, or_else, last_mode, mode_for, goal_set};

use nz_input::{Goal, Goals, Mode};

/// What is asked of a system.
#[derive(Clone, Copy, PartialEq, Eq, Debug, Drop)]
pub struct GoalSet {
    /// The irreducible elements.
    pub hilbert: bool,
    /// The extreme rays, and the vertices of a polyhedron.
    pub rays: bool,
    /// The support hyperplanes and the equations.
    pub hyperplanes: bool,
    /// The irreducible elements of degree 1.
    pub degree_one: bool,
    /// The minimal generators of the module of a polyhedron.
    pub modules: bool,
    /// A cover by simplices.
    pub cover: bool,
    /// The lattice points of a bounded polyhedron: a run of its own lists them, and no other list is made.
    pub lattice_points: bool,
}

fn is_goal(goal: Goal, other: Goal) -> bool
    ensures { result ≡ is_goal goal other }
{
    match goal {
        Goal::HilbertBasis => match other {
            Goal::HilbertBasis => true,
            _ => false,
        },
        Goal::ExtremeRays => match other {
            Goal::ExtremeRays => true,
            _ => false,
        },
        Goal::SupportHyperplanes => match other {
            Goal::SupportHyperplanes => true,
            _ => false,
        },
        Goal::Deg1Elements => match other {
            Goal::Deg1Elements => true,
            _ => false,
        },
        Goal::ModuleGenerators => match other {
            Goal::ModuleGenerators => true,
            _ => false,
        },
        Goal::Triangulation => match other {
            Goal::Triangulation => true,
            _ => false,
        },
        Goal::DualMode => match other {
            Goal::DualMode => true,
            _ => false,
        },
        Goal::PrimalMode => match other {
            Goal::PrimalMode => true,
            _ => false,
        },
        Goal::LatticePoints => match other {
            Goal::LatticePoints => true,
            _ => false,
        },
    }
}

fn named_by(found: bool, goal: Goal, other: Goal) -> bool
    ensures { result ≡ (found || is_goal goal other) }
{
    found || is_goal(goal, other)
}

fn names(goal: Goal, goals: &Goals) -> bool
    ensures { result ≡ names goal goals.now }
{
    let mut found = false;
    for place in 0..goals.len() {
        found = named_by(found, goal, goals.at(place));
    }
    found
}

// Whether the word stands in one of the lists.
fn either_names(goal: Goal, first: &Goals, second: &Goals) -> bool
    ensures { result ≡ names goal (first.now ++ second.now) }
{
    names(goal, first) || names(goal, second)
}

/// The goals that two lists name together.
pub fn goal_set(first: &Goals, second: &Goals) -> GoalSet
    ensures { result ≡ goal_set (first.now ++ second.now) }
{
    let hilbert = either_names(Goal::HilbertBasis, first, second);
    let rays = either_names(Goal::ExtremeRays, first, second);
    let hyperplanes = either_names(Goal::SupportHyperplanes, first, second);
    let degree_one = either_names(Goal::Deg1Elements, first, second);
    let modules = either_names(Goal::ModuleGenerators, first, second);
    let cover = either_names(Goal::Triangulation, first, second);
    let lattice_points = either_names(Goal::LatticePoints, first, second);
    let other = hilbert || rays || hyperplanes || degree_one || modules || cover || lattice_points;
    GoalSet {
        hilbert: hilbert || !other,
        rays,
        hyperplanes,
        degree_one,
        modules,
        cover,
        lattice_points,
    }
}

fn mode_of(goal: Goal) -> Option<Mode>
    ensures { result ≡ mode_of goal }
{
    match goal {
        Goal::DualMode => Some(Mode::Dual),
        Goal::PrimalMode => Some(Mode::Primal),
        _ => None,
    }
}

fn or_else(mode: Option<Mode>, other: Option<Mode>) -> Option<Mode>
    ensures { result ≡ or_else mode other }
{
    match mode {
        Some(mode) => Some(mode),
        None => other,
    }
}

fn last_mode(goals: &Goals) -> Option<Mode>
    ensures { result ≡ last_mode goals.now }
{
    let mut mode = None;
    for place in 0..goals.len() {
        mode = or_else(mode_of(goals.at(place)), mode);
    }
    mode
}

/// The mode, where the words stand before the goals of the file.
pub(crate) fn mode_for(cover: bool, words: &Goals, goals: &Goals) -> Mode
    ensures { result ≡ mode_for cover (last_mode words.now) (last_mode goals.now) }
{
    if cover {
        return Mode::Primal;
    }
    match last_mode(words) {
        Some(mode) => mode,
        None => match last_mode(goals) {
            Some(mode) => mode,
            None => Mode::Primal,
        },
    }
}
