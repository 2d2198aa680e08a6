// Sets of places as words of bits. Those of many sets stand in columns, one for each 64 places.
ghost use Rattle.std.specs.Prelude.{◌≡◌, ℕ, ◌+◌, ◌*◌, ◌/◌, ◌<◌, List, length, IfOk, IsTrue};
ghost use Rattle.std.specs.List.{AllByRecursion as Each};
ghost use Rattle.nz_rays.specs.Words.{IsWordOf, IsWordWith, IsColumn, AreColumns, IsPlaceIn, AreBusy, AreNear, HaveFew, TellsCovered};

use nz_vec::{NoMemory, PlaceLists, Places};
use std::alloc::Global;
use std::marker::Model;

/// For each set its word from one place on.
#[derive(Drop)]
pub(crate) struct Column {
    words: Vec<u64>,
}

impl Model for Column {
    ghost use Rattle.std.specs.Prelude.{List, ℕ};

    ghost Value = { List ℕ };

    ghost view = { λ c. c.words.items };
}

// The word with this place, if it is one of its own.
fn with_place(word: u64, from: usize, place: usize) -> u64
    ensures { IsWordWith word from place result }
{
    if place < from {
        return word;
    }
    let bit = place - from;
    if bit < 64 { word | (1 << bit) } else { word }
}

// The word of the set from this place on.
fn word_of(set: &Places, from: usize) -> u64
    ensures { IsWordOf set.now from result }
{
    let mut word = 0;
    for index in 0..set.len() {
        word = with_place(word, from, set.at(index));
    }
    word
}

// The words of the sets from this place on.
fn column_of(alloc: Global, sets: &PlaceLists, from: usize) -> Result<Column, NoMemory>
    ensures { IfOk result (IsColumn from sets.now) }
{
    let mut words = Vec::new(alloc);
    for place in 0..sets.len() {
        match words.push(word_of(sets.at(place), from)) {
            Ok(()) => {}
            Err(_) => return Err(NoMemory),
        }
    }
    Ok(Column { words })
}

/// The columns of sets of places below `bound`.
pub(crate) fn columns_of(
    alloc: Global,
    sets: &PlaceLists,
    bound: usize,
) -> Result<Vec<Column>, NoMemory>
    requires { Each (Each (λ k. k < bound)) sets.now }
    ensures { IfOk result (λ v. AreColumns sets.now v.items) }
{
    let mut columns = Vec::new(alloc);
    for number in 0..bound / 64 + 1 {
        let column = match column_of(alloc, sets, 64 * number) {
            Ok(column) => column,
            Err(refusal) => return Err(refusal),
        };
        match columns.push(column) {
            Ok(()) => {}
            Err(_) => return Err(NoMemory),
        }
    }
    Ok(columns)
}

/// Whether the sets at two places have fewer places in common than needed.
pub(crate) fn have_few(columns: &[Column], first: usize, second: usize, needed: usize) -> bool
    requires first { IsPlaceIn first columns.now }
    requires second { IsPlaceIn second columns.now }
    ensures { IsTrue result → HaveFew columns.now first second needed }
{
    let mut missing = needed;
    for number in 0..columns.len() {
        let column = &columns[number];
        let both = column.words[first] & column.words[second];
        missing = missing.saturating_sub(both.count_ones() as usize);
    }
    missing > 0
}

/// Whether the set at `place` has all places that the sets at two others have in common.
pub(crate) fn covers(columns: &[Column], first: usize, second: usize, place: usize) -> bool
    requires first { IsPlaceIn first columns.now }
    requires second { IsPlaceIn second columns.now }
    requires place { IsPlaceIn place columns.now }
    ensures { TellsCovered columns.now first second place result }
{
    for number in 0..columns.len() {
        let column = &columns[number];
        let both = column.words[first] & column.words[second];
        if both & column.words[place] != both {
            return false;
        }
    }
    true
}

/// Whether each of the sets at these places has fewer places in common with the first than needed.
pub(crate) fn are_far(columns: &[Column], first: usize, places: &Places, needed: usize) -> bool
    requires first { IsPlaceIn first columns.now }
    requires places { Each (λ k. IsPlaceIn k columns.now) places.now }
    ensures { IsTrue result → Each (λ k. HaveFew columns.now first k needed) places.now }
{
    if have_few(columns, first, first, needed) {
        return true;
    }
    for index in 0..places.len() {
        if !have_few(columns, first, places.at(index), needed) {
            return false;
        }
    }
    true
}

/// The places below `bound` of the sets with as many places as needed.
pub(crate) fn busy_places(
    alloc: Global,
    columns: &[Column],
    bound: usize,
    needed: usize,
) -> Result<Places, NoMemory>
    requires { Each (λ c. length c ≡ bound) columns.now }
    ensures { IfOk result (AreBusy columns.now bound needed) }
{
    let mut busy = Places::new(alloc);
    for place in 0..bound {
        if !have_few(columns, place, place, needed) {
            match busy.push(place) {
                Ok(()) => {}
                Err(refusal) => return Err(refusal),
            }
        }
    }
    Ok(busy)
}

/// Of the busy places those of the sets with as many places in common with the first as needed.
pub(crate) fn near_places(
    alloc: Global,
    columns: &[Column],
    busy: &Places,
    first: usize,
    needed: usize,
) -> Result<Places, NoMemory>
    requires first { IsPlaceIn first columns.now }
    requires busy { Each (λ k. IsPlaceIn k columns.now) busy.now }
    ensures { IfOk result (λ near. (bound : ℕ) → AreBusy columns.now bound needed busy.now → AreNear columns.now bound first needed near) }
{
    let mut near = Places::new(alloc);
    for index in 0..busy.len() {
        let place = busy.at(index);
        if !have_few(columns, first, place, needed) {
            match near.push(place) {
                Ok(()) => {}
                Err(refusal) => return Err(refusal),
            }
        }
    }
    Ok(near)
}
