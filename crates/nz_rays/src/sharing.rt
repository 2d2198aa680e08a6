// The rows at which rays on both sides of a new row are 0. They alone tell which pairs are adjacent,
// and are few in a large cone: so the zero sets are cut to them before they become words.
ghost use Rattle.std.specs.Prelude.{◌≡◌, pos, true, ◌<◌, ◌<ℤ◌, length, get_or, IfOk, IsSome};
ghost use Rattle.std.specs.List.{AllByRecursion as Each, AllZip};
ghost use Rattle.nz_spec.specs.Order.{Pairwise, IsListOf};
ghost use Rattle.nz_rays.specs.Shared.{AreMarkedToo, AreMarksOf, AreNumberedBoth, AreSharedColumns, HasAllCommon, IsCutTo, IsNextNumber, IsNumbering};

use crate::words::{Column, columns_of};
use nz_vec::{NoMemory, PlaceLists, Places, Row, Scalar, is_negative, is_positive};
use std::alloc::Global;

/// Some places in order, and for each place below a bound its number among them.
#[derive(Drop)]
struct Numbering {
    shared: Places,
    numbers: Vec<Option<usize>>,
}

// The places at which the value is positive.
fn positive_places<T: Scalar>(alloc: Global, values: &Row<T>) -> Result<Places, NoMemory>
    ensures { IfOk result (IsListOf ◌<◌ (λ k. (k < length values.now) × (pos 0 <ℤ get_or values.now k (pos 0)))) }
{
    let mut places = Places::new(alloc);
    for place in 0..values.len() {
        if is_positive(values.at(place)) {
            match places.push(place) {
                Ok(()) => {}
                Err(refusal) => return Err(refusal),
            }
        }
    }
    Ok(places)
}

/// The places at which the value is negative.
pub(crate) fn negative_places<T: Scalar>(alloc: Global, values: &Row<T>) -> Result<Places, NoMemory>
    ensures { IfOk result (IsListOf ◌<◌ (λ k. (k < length values.now) × (get_or values.now k (pos 0) <ℤ pos 0))) }
{
    let mut places = Places::new(alloc);
    for place in 0..values.len() {
        if is_negative(values.at(place)) {
            match places.push(place) {
                Ok(()) => {}
                Err(refusal) => return Err(refusal),
            }
        }
    }
    Ok(places)
}

// Marks the places of a set.
fn mark(marks: &mut Vec<bool>, set: &Places)
    requires { Each (λ k. k < length marks.old.items) set.now }
    ensures { AreMarkedToo set.now marks.old.items marks.new.items }
{
    for index in 0..set.len() {
        let place = set.at(index);
        marks[place] = true;
    }
}

// Marks the places of the sets at some places.
fn marks_of(
    alloc: Global,
    sets: &PlaceLists,
    places: &Places,
    bound: usize,
) -> Result<Vec<bool>, NoMemory>
    requires places { Each (λ p. p < length sets.now) places.now }
    requires bound { Each (Each (λ k. k < bound)) sets.now }
    ensures { IfOk result (λ m. AreMarksOf sets.now places.now bound m.items) }
{
    let mut marks = match Vec::from_elem(alloc, false, bound) {
        Ok(marks) => marks,
        Err(_) => return Err(NoMemory),
    };
    for index in 0..places.len() {
        mark(&mut marks, sets.at(places.at(index)));
    }
    Ok(marks)
}

// Puts the place last if it is chosen, and gives its number.
fn put_if(shared: &mut Places, place: usize, chosen: bool) -> Result<Option<usize>, NoMemory>
    ensures put { IfOk result (λ o. IsNextNumber shared.old place o shared.new) }
    ensures chosen { IfOk result (λ o. chosen ≡ true → IsSome o) }
{
    if !chosen {
        return Ok(None);
    }
    let number = shared.len();
    match shared.push(place) {
        Ok(()) => Ok(Some(number)),
        Err(refusal) => Err(refusal),
    }
}

fn are_both(first: bool, second: bool) -> bool
    ensures { first ≡ true → second ≡ true → result ≡ true }
{
    if first { second } else { false }
}

// Numbers the places that are marked twice.
fn numbering_of(alloc: Global, first: &[bool], second: &[bool]) -> Result<Numbering, NoMemory>
    requires { length second.now ≡ length first.now }
    ensures { IfOk result (λ n. AreNumberedBoth first.now second.now (length first.now) n.shared n.numbers.items) }
{
    let mut shared = Places::new(alloc);
    let mut numbers = Vec::new(alloc);
    for place in 0..first.len() {
        let chosen = are_both(first[place], second[place]);
        let number = match put_if(&mut shared, place, chosen) {
            Ok(number) => number,
            Err(refusal) => return Err(refusal),
        };
        match numbers.push(number) {
            Ok(()) => {}
            Err(_) => return Err(NoMemory),
        }
    }
    Ok(Numbering { shared, numbers })
}

// The numbers of the places of a set, of those that have one.
fn cut_of(alloc: Global, numbering: &Numbering, set: &Places) -> Result<Places, NoMemory>
    requires numbering { IsNumbering numbering.now.shared numbering.now.numbers.items }
    requires bound { Each (λ k. k < length numbering.now.numbers.items) set.now }
    requires in_order { Pairwise ◌<◌ set.now }
    ensures { IfOk result (IsCutTo numbering.now.shared set.now) }
{
    let mut cut = Places::new(alloc);
    for index in 0..set.len() {
        match numbering.numbers[set.at(index)] {
            Some(number) => match cut.push(number) {
                Ok(()) => {}
                Err(refusal) => return Err(refusal),
            },
            None => {}
        }
    }
    Ok(cut)
}

fn cuts_of(alloc: Global, numbering: &Numbering, sets: &PlaceLists) -> Result<PlaceLists, NoMemory>
    requires numbering { IsNumbering numbering.now.shared numbering.now.numbers.items }
    requires bound { Each (Each (λ k. k < length numbering.now.numbers.items)) sets.now }
    requires in_order { Each (Pairwise ◌<◌) sets.now }
    ensures { IfOk result (AllZip (IsCutTo numbering.now.shared) sets.now) }
{
    let mut cuts = PlaceLists::new(alloc);
    for place in 0..sets.len() {
        let cut = match cut_of(alloc, numbering, sets.at(place)) {
            Ok(cut) => cut,
            Err(refusal) => return Err(refusal),
        };
        match cuts.push(cut) {
            Ok(()) => {}
            Err(refusal) => return Err(refusal),
        }
    }
    Ok(cuts)
}

// Numbers the places that a set above and a set below have.
fn shared_places<T: Scalar>(
    alloc: Global,
    values: &Row<T>,
    zeros: &PlaceLists,
    bound: usize,
) -> Result<Numbering, NoMemory>
    requires count { length zeros.now ≡ length values.now }
    requires bound { Each (Each (λ k. k < bound)) zeros.now }
    ensures { IfOk result (λ n. IsNumbering n.shared n.numbers.items × (length n.numbers.items ≡ bound) × HasAllCommon values.now zeros.now n.shared) }
{
    let above = match positive_places(alloc, values) {
        Ok(places) => places,
        Err(refusal) => return Err(refusal),
    };
    let below = match negative_places(alloc, values) {
        Ok(places) => places,
        Err(refusal) => return Err(refusal),
    };
    let first = match marks_of(alloc, zeros, &above, bound) {
        Ok(marks) => marks,
        Err(refusal) => return Err(refusal),
    };
    let second = match marks_of(alloc, zeros, &below, bound) {
        Ok(marks) => marks,
        Err(refusal) => return Err(refusal),
    };
    match numbering_of(alloc, first.as_slice(), second.as_slice()) {
        Ok(numbering) => Ok(numbering),
        Err(refusal) => Err(refusal),
    }
}

/// The columns of the sets of places below `bound`, cut to what both sides of the new row share.
pub(crate) fn shared_columns<T: Scalar>(
    alloc: Global,
    values: &Row<T>,
    zeros: &PlaceLists,
    bound: usize,
) -> Result<Vec<Column>, NoMemory>
    requires count { length zeros.now ≡ length values.now }
    requires bound { Each (Each (λ k. k < bound)) zeros.now }
    requires sets { Each (Pairwise ◌<◌) zeros.now }
    ensures { IfOk result (λ v. AreSharedColumns values.now zeros.now v.items) }
{
    let numbering = match shared_places(alloc, values, zeros, bound) {
        Ok(numbering) => numbering,
        Err(refusal) => return Err(refusal),
    };
    let cuts = match cuts_of(alloc, &numbering, zeros) {
        Ok(cuts) => cuts,
        Err(refusal) => return Err(refusal),
    };
    match columns_of(alloc, &cuts, numbering.shared.len()) {
        Ok(columns) => Ok(columns),
        Err(refusal) => Err(refusal),
    }
}
