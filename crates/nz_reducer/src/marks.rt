// Marks of the entries of a table, in the order of their sums.
ghost use Rattle.std.specs.Prelude.{◌≡◌, ◌≢◌, ◌<◌, ◌≤ℤ◌, length, map, IsTrue, MatchBool, MatchOption};
ghost use Rattle.std.specs.Rc.{rc_slice_items};
ghost use Rattle.std.specs.List.{AllByRecursion as Each};
ghost use Rattle.nz_spec.specs.Order.{Pairwise};
ghost use Rattle.nz_order.specs.Boxes.{IsBelow};
ghost use Rattle.nz_reducer.specs.Marks.{RisesTo, IsReached, IsPosition, IsReach, IsSearched, AreWithoutSum, TellWords, IsOneUnder, IsUnderAt, NoneOfMarked};

use crate::levels::is_within;
use crate::recent::Recent;
use nz_vec::{Row, Scalar};
use std::rc::RcSlice;

/// Where an entry stands, the levels that it reaches, and the sum of its values, if that is a value of
/// the type. Marks without a sum stand in front; the others follow by their sums.
#[derive(Drop)]
pub(crate) struct Mark<T: Scalar> {
    pub(crate) sum: Option<T>,
    pub(crate) place: usize,
    pub(crate) word: u64,
}

/// Where a mark with this sum can be put in.
pub(crate) fn position<T: Scalar>(marks: &[Mark<T>], sum: Option<T>) -> usize
    requires { Pairwise (λ a b. RisesTo T.integer a.sum b.sum) marks.now }
    ensures { IsPosition T.integer (λ m. m.sum) marks.now sum result }
{
    match sum {
        Some(_) => reach(marks, sum),
        None => 0,
    }
}

/// How many marks are reached in a search for values with this sum. They stand in front.
pub(crate) fn reach<T: Scalar>(marks: &[Mark<T>], sum: Option<T>) -> usize
    requires { Pairwise (λ a b. RisesTo T.integer a.sum b.sum) marks.now }
    ensures { IsReach T.integer (λ m. m.sum) marks.now sum result }
{
    let mut low = 0;
    let mut high = marks.len();
    while low < high {
        let middle = low + (high - low) / 2;
        if is_reached(marks[middle].sum, sum) {
            low = middle + 1;
        } else {
            high = middle;
        }
    }
    low
}

/// Whether an entry with the first sum is compared in a search for values with the second.
fn is_reached<T: Scalar>(entry: Option<T>, searched: Option<T>) -> bool
    ensures { MatchBool result (IsReached T.integer entry searched) (¬ IsReached T.integer entry searched) }
{
    match (entry, searched) {
        (Some(entry), Some(searched)) => is_at_most(entry, searched),
        _ => true,
    }
}

/// Whether the first value is at most the second.
pub(crate) fn is_at_most<T: Scalar>(a: T, b: T) -> bool
    ensures { MatchBool result (T.integer a ≤ℤ T.integer b) (¬ (T.integer a ≤ℤ T.integer b)) }
{
    a <= b
}

/// Of the entries of the first marks, the least place of one that is at most these values, or else the
/// number of entries, and how many were compared. An entry behind one that was found is not.
pub(crate) fn search<T: Scalar>(
    entries: &[RcSlice<T>],
    marks: &[Mark<T>],
    values: &Row<T>,
) -> (usize, usize)
    requires wide { Each (λ e. length (rc_slice_items e) ≡ length values.now) entries.now }
    requires inside { Each (λ k. k < length entries.now) (map (λ m. m.place) marks.now) }
    requires different { Pairwise ◌≢◌ (map (λ m. m.place) marks.now) }
    ensures { IsSearched (map (λ e. map T.integer (rc_slice_items e)) entries.now) values.now (map (λ m. m.place) marks.now) result.0 result.1 }
{
    let mut first = entries.len();
    let mut compared = 0;
    for index in 0..marks.len() {
        let place = marks[index].place;
        if place >= first {
            continue;
        }
        compared += 1;
        if !is_under(entries[place].as_slice(), values) {
            continue;
        }
        first = place;
    }
    (first, compared)
}

/// How many of these marks have no sum. They stand in front.
pub(crate) fn without_sum<T: Scalar>(marks: &[Mark<T>]) -> usize
    requires { Pairwise (λ a b. RisesTo T.integer a.sum b.sum) marks.now }
    ensures { AreWithoutSum (λ m. m.sum) marks.now result }
{
    for index in 0..marks.len() {
        let mark = &marks[index];
        match mark.sum {
            Some(_) => return index,
            None => {}
        }
    }
    marks.len()
}

/// Whether one of the entries of these marks is at most the values with this word.
pub(crate) fn is_one_under<T: Scalar>(
    entries: &[RcSlice<T>],
    marks: &[Mark<T>],
    recent: &mut Recent,
    values: &Row<T>,
    word: u64,
) -> bool
    requires wide { Each (λ e. length (rc_slice_items e) ≡ length values.now) entries.now }
    requires inside { Each (λ m. m.place < length entries.now) marks.now }
    requires words { TellWords (λ m. m.place) (λ m. m.word) (map (λ e. map T.integer (rc_slice_items e)) entries.now) values.now word marks.now }
    ensures { MatchBool result (IsOneUnder (λ m. m.place) (map (λ e. map T.integer (rc_slice_items e)) entries.now) values.now marks.now) (NoneOfMarked (λ m. m.place) (map (λ e. map T.integer (rc_slice_items e)) entries.now) values.now marks.now) }
{
    if is_recent_under(entries, marks, recent, values, word) {
        return true;
    }
    match find_under(entries, marks, values, word) {
        Some(index) => {
            recent.note(index);
            true
        }
        None => false,
    }
}

/// Whether one of the entries that were found last is at most the values with this word.
fn is_recent_under<T: Scalar>(
    entries: &[RcSlice<T>],
    marks: &[Mark<T>],
    recent: &Recent,
    values: &Row<T>,
    word: u64,
) -> bool
    requires wide { Each (λ e. length (rc_slice_items e) ≡ length values.now) entries.now }
    requires inside { Each (λ m. m.place < length entries.now) marks.now }
    ensures { IsTrue result → IsOneUnder (λ m. m.place) (map (λ e. map T.integer (rc_slice_items e)) entries.now) values.now marks.now }
{
    for slot in 0..recent.indices.len() {
        let index = recent.indices[slot];
        if index >= marks.len() {
            continue;
        }
        let mark = &marks[index];
        if !is_within(mark.word, word) {
            continue;
        }
        if is_under(entries[mark.place].as_slice(), values) {
            return true;
        }
    }
    false
}

/// The index of one of these marks whose entry is at most the values with this word.
fn find_under<T: Scalar>(
    entries: &[RcSlice<T>],
    marks: &[Mark<T>],
    values: &Row<T>,
    word: u64,
) -> Option<usize>
    requires wide { Each (λ e. length (rc_slice_items e) ≡ length values.now) entries.now }
    requires inside { Each (λ m. m.place < length entries.now) marks.now }
    requires words { TellWords (λ m. m.place) (λ m. m.word) (map (λ e. map T.integer (rc_slice_items e)) entries.now) values.now word marks.now }
    ensures { MatchOption result (NoneOfMarked (λ m. m.place) (map (λ e. map T.integer (rc_slice_items e)) entries.now) values.now marks.now) (IsUnderAt (λ m. m.place) (map (λ e. map T.integer (rc_slice_items e)) entries.now) values.now marks.now) }
{
    for index in 0..marks.len() {
        let mark = &marks[index];
        if !is_within(mark.word, word) {
            continue;
        }
        if is_under(entries[mark.place].as_slice(), values) {
            return Some(index);
        }
    }
    None
}

/// Whether each value of the entry is at most that of the list.
fn is_under<T: Scalar>(entry: &[T], values: &Row<T>) -> bool
    requires { length entry.now ≡ length values.now }
    ensures { MatchBool result (IsBelow (map T.integer entry.now) values.now) (¬ IsBelow (map T.integer entry.now) values.now) }
{
    for column in 0..entry.len() {
        if !is_at_most(entry[column], values.at(column)) {
            return false;
        }
    }
    true
}
