// The lists of the irreducible elements: by level, and in the order of the system.
ghost use Rattle.std.specs.Prelude.{◌≡◌, length, IfOk, IfErr, IfSome, Some, None, MatchOption, MatchResult, IsTrue};
ghost use Rattle.std.specs.List.{AllByRecursion as Each};
ghost use Rattle.nz_spec.specs.Vectors.{HasWidth};
ghost use Rattle.nz_spec.specs.Order.{ListsOnce};
ghost use Rattle.nz_spec.specs.Systems.{IsMember};
ghost use Rattle.nz_spec.specs.Monoids.{IsPositive, IsIrreducible};
ghost use Rattle.nz_degree.specs.Levels.{HasEntry};
ghost use Rattle.nz_solve.specs.Parts.{AreLevels, ArePositive, IsDegreeRefusal, IsSorted, LacksSomeDegree, IsLevelCause, AreSorted, AreElementLists, IsOutcomeRefusal};

use crate::refusal::{SolveRefusal, unreckoned};
use nz_degree::{Levels, Positivity, check, sort, split};
use nz_system::SystemOver;
use nz_vec::{Ints, NoMemory, Num, Row, Rows, Scalar};
use std::alloc::Global;

/// The Hilbert basis, and where there is a level the module generators.
#[derive(Drop)]
pub(crate) struct ElementLists<T: Scalar> {
    pub(crate) hilbert: Rows<T>,
    pub(crate) modules: Option<Rows<T>>,
}

/// The lists of a system whose irreducible elements these are, in order; or the first of the Hilbert
/// basis, where its degree is 0 or less.
pub(crate) fn element_lists<T: Scalar>(
    alloc: Global,
    system: &SystemOver<T>,
    list: Rows<T>,
) -> Result<ElementLists<T>, SolveRefusal>
    requires positive { IsPositive (IsMember system.now.system) }
    requires list { ListsOnce (IsIrreducible (IsMember system.now.system)) list }
    ensures { MatchResult result (λ l. AreElementLists system.now.system l.hilbert l.modules) (IsOutcomeRefusal T.HALF system.now.system) }
{
    system.kept();
    let levels = match by_level(alloc, system.level, list) {
        Ok(levels) => levels,
        Err(_) => return Err(SolveRefusal::NoMemory),
    };
    match check_degrees(alloc, &system.grading, &levels.zero) {
        Ok(()) => {}
        Err(refusal) => return Err(refusal),
    }
    match sort_levels(alloc, system.level, &system.grading, levels) {
        Ok(lists) => Ok(lists),
        Err(refusal) => Err(unreckoned(refusal)),
    }
}

// With a level the rows of level 0 and those of level 1, and else all.
fn by_level<T: Scalar>(alloc: Global, level: bool, list: Rows<T>) -> Result<Levels<T>, NoMemory>
    requires { IsTrue level → Each HasEntry list }
    ensures { IfOk result (λ l. AreLevels level list l.zero l.one) }
{
    if level {
        return split(alloc, &list);
    }
    Ok(Levels {
        zero: list,
        one: Rows::new(alloc),
    })
}

// Refuses rows of which one has a degree of 0 or less, and names the first of these.
fn check_degrees<T: Scalar>(
    alloc: Global,
    grading: &Option<Row<T>>,
    list: &Rows<T>,
) -> Result<(), SolveRefusal>
    requires { IfSome grading.now (λ g. Each (HasWidth (length g)) list.now) }
    ensures { MatchResult result (λ _. ArePositive grading.now list.now) (IsDegreeRefusal T.fits grading.now list.now) }
{
    let grading = match grading {
        Some(grading) => grading,
        None => return Ok(()),
    };
    match check(grading, list) {
        Ok(Positivity::Positive) => Ok(()),
        Ok(Positivity::NotPositive(place)) => match entries_of(alloc, list.at(place)) {
            Ok(entries) => Err(SolveRefusal::Grade(entries)),
            Err(_) => Err(SolveRefusal::NoMemory),
        },
        Err(refusal) => Err(unreckoned(refusal)),
    }
}

// The entries of the row.
fn entries_of<T: Scalar>(alloc: Global, row: &Row<T>) -> Result<Ints, NoMemory>
    ensures { IfOk result (λ entries. entries ≡ row.now) }
{
    let mut entries = Ints::new(alloc);
    for place in 0..row.len() {
        match entries.push(row.at(place).to_i128()) {
            Ok(()) => {}
            Err(refusal) => return Err(refusal),
        }
    }
    Ok(entries)
}

// Both levels in order, the second where there is a level.
fn sort_levels<T: Scalar>(
    alloc: Global,
    level: bool,
    grading: &Option<Row<T>>,
    levels: Levels<T>,
) -> Result<ElementLists<T>, Num>
    requires zero { IfSome grading.now (λ g. Each (HasWidth (length g)) levels.zero) }
    requires one { IsTrue level → IfSome grading.now (λ g. Each (HasWidth (length g)) levels.one) }
    ensures sorted { IfOk result (λ l. AreSorted level grading.now levels.zero levels.one l.hilbert l.modules) }
    ensures cause { IfErr result (λ e. e ≡ Num.Range → IsLevelCause T.fits level grading.now levels.zero levels.one) }
{
    let Levels { zero, one } = levels;
    let hilbert = match put_in_order(alloc, zero, grading) {
        Ok(hilbert) => hilbert,
        Err(refusal) => return Err(refusal),
    };
    if !level {
        return Ok(ElementLists {
            hilbert,
            modules: None,
        });
    }
    match put_in_order(alloc, one, grading) {
        Ok(modules) => Ok(ElementLists {
            hilbert,
            modules: Some(modules),
        }),
        Err(refusal) => Err(refusal),
    }
}

/// The rows in order: by degree where a grading is given, and then lexicographically.
pub(crate) fn put_in_order<T: Scalar>(
    alloc: Global,
    mut list: Rows<T>,
    grading: &Option<Row<T>>,
) -> Result<Rows<T>, Num>
    requires { IfSome grading.now (λ g. Each (HasWidth (length g)) list) }
    ensures sorted { IfOk result (IsSorted grading.now list) }
    ensures cause { IfErr result (λ e. e ≡ Num.Range → LacksSomeDegree T.fits grading.now list) }
{
    match sort(alloc, &mut list, as_row(grading)) {
        Ok(()) => Ok(list),
        Err(refusal) => Err(refusal),
    }
}

// The grading, where it is given.
fn as_row<T: Scalar>(grading: &Option<Row<T>>) -> Option<&Row<T>>
    ensures { MatchOption result (grading.now ≡ None) (λ g. grading.now ≡ Some g.now) }
{
    match grading {
        Some(grading) => Some(grading),
        None => None,
    }
}
