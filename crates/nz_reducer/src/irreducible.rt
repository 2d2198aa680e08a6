//! The candidates that no other one reduces.
ghost use Rattle.std.specs.Prelude.{◌≡◌, map, IfOk, MatchBool, MatchResult};
ghost use Rattle.std.specs.List.Sorted.{IsPermutation};
ghost use Rattle.nz_spec.specs.Vectors.{IsZero};
ghost use Rattle.nz_spec.specs.Order.{IsLexBefore, IsListOf, ListsOnce};
ghost use Rattle.nz_vec.specs.Sums.{HasValueOutside};
ghost use Rattle.nz_reducer.specs.Reducers.{AreSeparated, AreValued, IsUnreduced, IsNotFalling};

use crate::valued::{Valued, with_values};
use crate::{DegreeTable, Table};
use nz_vec::{NoMemory, Num, Row, Rows, Scalar, is_zero};
use std::alloc::Global;

/// Whether each entry is 0.
fn are_zero<T: Scalar>(entries: &[T]) -> bool
    ensures { MatchBool result (IsZero (map T.integer entries.now)) (¬ IsZero (map T.integer entries.now)) }
{
    for entry in entries {
        if !is_zero(*entry) {
            return false;
        }
    }
    true
}

/// The candidates that no other one reduces, in the order of their values. In that order each
/// reducer stands before what it reduces, and what a candidate reduces is reduced by what reduces it,
/// so only those kept before are tried.
fn unreduced<T: Scalar>(
    alloc: Global,
    rows: &Rows<T>,
    candidates: &Rows<T>,
    mut list: Vec<Valued<T>>,
) -> Result<Vec<Vec<T>>, NoMemory>
    requires separated { AreSeparated rows.now candidates.now }
    requires valued { AreValued rows.now candidates.now list.items (λ c. map T.integer c.entries.items) (λ c. map T.integer c.values.items) }
    ensures { IfOk result (λ kept. ListsOnce (IsUnreduced rows.now candidates.now) (map (λ v. map T.integer v.items) kept.items)) }
{
    match list.sort() {
        Ok(()) => {}
        Err(_) => return Err(NoMemory),
    }
    let mut table = DegreeTable::new(alloc, rows.len())?;
    let mut kept = Vec::new(alloc);
    for candidate in &list {
        if are_zero(&candidate.entries) {
            continue;
        }
        let values = Row::of(alloc, &candidate.values)?;
        if table.has_any_below(&values) {
            continue;
        }
        table.put(&values)?;
        let entries = match Vec::from_slice(alloc, &candidate.entries) {
            Ok(entries) => entries,
            Err(_) => return Err(NoMemory),
        };
        match kept.push(entries) {
            Ok(()) => {}
            Err(_) => return Err(NoMemory),
        }
    }
    Ok(kept)
}

/// The rows of these entries, lexicographically.
fn in_order<T: Scalar>(alloc: Global, mut list: Vec<Vec<T>>) -> Result<Rows<T>, NoMemory>
    ensures permutation { IfOk result (λ rows. IsPermutation (map (λ v. map T.integer v.items) list.items) rows) }
    ensures order { IfOk result (λ rows. IsNotFalling rows) }
{
    match list.sort() {
        Ok(()) => {}
        Err(_) => return Err(NoMemory),
    }
    let mut rows = Rows::new(alloc);
    for entries in &list {
        let row = Row::of(alloc, entries)?;
        rows.push(row)?;
    }
    Ok(rows)
}

/// The nonzero candidates that no other one reduces, lexicographically and each once. A candidate
/// reduces another where it is not 0 and no row is negative at their difference. Range comes only
/// where a row has a value at a candidate that the type cannot form.
pub fn irreducibles<T: Scalar>(
    alloc: Global,
    candidates: &Rows<T>,
    rows: &Rows<T>,
) -> Result<Rows<T>, Num>
    requires { AreSeparated rows.now candidates.now }
    ensures { MatchResult result (IsListOf IsLexBefore (IsUnreduced rows.now candidates.now)) (λ e. e ≡ Num.Range → HasValueOutside T.fits rows.now candidates.now) }
{
    let list = match with_values(alloc, rows, candidates) {
        Ok(list) => list,
        Err(refusal) => return Err(refusal),
    };
    let kept = match unreduced(alloc, rows, candidates, list) {
        Ok(kept) => kept,
        Err(NoMemory) => return Err(Num::NoMemory),
    };
    match in_order(alloc, kept) {
        Ok(rows) => Ok(rows),
        Err(NoMemory) => Err(Num::NoMemory),
    }
}
