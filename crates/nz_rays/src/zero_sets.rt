// Sets of places, as increasing lists.
ghost use Rattle.std.specs.Prelude.{◌≡◌, ◌≢◌, ℕ, ◌<◌, ◌++◌, ◌∷◌, [], IfOk, MatchBool, Contains};
ghost use Rattle.nz_spec.specs.Order.{Pairwise, IsListOf};

use nz_vec::{NoMemory, Places};
use std::alloc::Global;

// Whether the place is in the set.
fn has(set: &Places, place: usize) -> bool
    requires { Pairwise ◌<◌ set.now }
    ensures { MatchBool result (Contains set.now place) (¬ Contains set.now place) }
{
    let mut low = 0;
    let mut high = set.len();
    'halves: while low < high {
        let middle = low + (high - low) / 2;
        let found = set.at(middle);
        if found == place {
            return true;
        }
        if found < place {
            low = middle + 1;
        } else {
            high = middle;
        }
    }
    false
}

/// The places in both sets.
pub(crate) fn common(alloc: Global, first: &Places, second: &Places) -> Result<Places, NoMemory>
    requires first { Pairwise ◌<◌ first.now }
    requires second { Pairwise ◌<◌ second.now }
    ensures { IfOk result (IsListOf ◌<◌ (λ k. Contains first.now k × Contains second.now k)) }
{
    let mut both = Places::new(alloc);
    for index in 0..first.len() {
        let place = first.at(index);
        if has(second, place) {
            match both.push(place) {
                Ok(()) => {}
                Err(refusal) => return Err(refusal),
            }
        }
    }
    Ok(both)
}

/// An equal set.
pub(crate) fn copied(alloc: Global, set: &Places) -> Result<Places, NoMemory>
    ensures { IfOk result (λ s. s ≡ set.now) }
{
    let mut copy = Places::new(alloc);
    for index in 0..set.len() {
        match copy.push(set.at(index)) {
            Ok(()) => {}
            Err(refusal) => return Err(refusal),
        }
    }
    Ok(copy)
}

/// The set with one more place at its end.
pub(crate) fn extended(alloc: Global, set: &Places, place: usize) -> Result<Places, NoMemory>
    ensures { IfOk result (λ s. s ≡ set.now ++ place ∷ []) }
{
    let mut copy = match copied(alloc, set) {
        Ok(copy) => copy,
        Err(refusal) => return Err(refusal),
    };
    match copy.push(place) {
        Ok(()) => Ok(copy),
        Err(refusal) => Err(refusal),
    }
}

/// All places below `count` but this one.
pub(crate) fn all_but(alloc: Global, count: usize, place: usize) -> Result<Places, NoMemory>
    ensures { IfOk result (IsListOf ◌<◌ (λ k. (k < count) × (k ≢ place))) }
{
    let mut others = Places::new(alloc);
    for other in 0..count {
        if other != place {
            match others.push(other) {
                Ok(()) => {}
                Err(refusal) => return Err(refusal),
            }
        }
    }
    Ok(others)
}
