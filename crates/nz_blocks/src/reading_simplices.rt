//! Simplices from the rows under their heading.
ghost use Rattle.std.specs.Prelude.{◌≡◌, ℕ, pos, ◌+◌, ◌<◌, List, Option, Some, map, option_map, MatchResult, IfOk, IfSome};
ghost use Rattle.std.specs.List.{AllByRecursion as Each};
ghost use Rattle.nz_blocks.specs.Output.{from_one};

use crate::refusal::BlockRefusal;
use nz_vec::{PlaceLists, Places, Row, Rows};
use std::alloc::Global;

// The place that is counted from 1, counted from 0, where it is one of so many.
fn place_from(entry: i128, count: usize) -> Option<usize>
    ensures whole { (p : ℕ) → p < count → entry ≡ pos (p + 1) → result ≡ Some p }
    ensures below { IfSome result (λ p. p < count) }
{
    if entry < 1 {
        return None;
    }
    if entry > count as i128 {
        return None;
    }
    Some((entry - 1) as usize)
}

fn places_from(alloc: Global, row: &Row<i128>, count: usize) -> Result<Places, BlockRefusal>
    ensures whole { (places : List ℕ) → Each (λ p. p < count) places → row.now ≡ from_one places → MatchResult result (λ ps. ps ≡ places) (λ e. e ≡ BlockRefusal.NoMemory) }
    ensures below { IfOk result (Each (λ p. p < count)) }
{
    let mut places = Places::new(alloc);
    for index in 0..row.len() {
        let place = match place_from(row.at(index), count) {
            Some(place) => place,
            None => return Err(BlockRefusal::Bad),
        };
        match places.push(place) {
            Ok(()) => {}
            Err(_) => return Err(BlockRefusal::NoMemory),
        }
    }
    Ok(places)
}

fn lists_from(alloc: Global, rows: &Rows<i128>, count: usize) -> Result<PlaceLists, BlockRefusal>
    ensures whole { (lists : List (List ℕ)) → Each (Each (λ p. p < count)) lists → rows.now ≡ map from_one lists → MatchResult result (λ ls. ls ≡ lists) (λ e. e ≡ BlockRefusal.NoMemory) }
    ensures below { IfOk result (Each (Each (λ p. p < count))) }
{
    let mut lists = PlaceLists::new(alloc);
    for index in 0..rows.len() {
        let places = match places_from(alloc, rows.at(index), count) {
            Ok(places) => places,
            Err(refusal) => return Err(refusal),
        };
        match lists.push(places) {
            Ok(()) => {}
            Err(_) => return Err(BlockRefusal::NoMemory),
        }
    }
    Ok(lists)
}

/// The simplices of so many generators, where there are rows of them.
pub fn simplices_from(
    alloc: Global,
    rows: &Option<Rows<i128>>,
    count: usize,
) -> Result<Option<PlaceLists>, BlockRefusal>
    ensures whole { (lists : Option (List (List ℕ))) → IfSome lists (Each (Each (λ p. p < count))) → rows.now ≡ option_map (map from_one) lists → MatchResult result (λ ls. ls ≡ lists) (λ e. e ≡ BlockRefusal.NoMemory) }
    ensures below { IfOk result (λ ls. IfSome ls (Each (Each (λ p. p < count)))) }
{
    match rows {
        Some(rows) => match lists_from(alloc, rows, count) {
            Ok(lists) => Ok(Some(lists)),
            Err(refusal) => Err(refusal),
        },
        None => Ok(None),
    }
}
