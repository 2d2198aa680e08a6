//! Rows and blocks at a place of a text.
ghost use Rattle.std.specs.Prelude.{◌≡◌, ℕ, ◌+◌, ◌-◌, ◌<◌, ◌≤◌, ◌^◌, ◌++◌, ◌∷◌, [], Option, Some, None, List, drop, length, MatchOption, MatchResult, IfSome};
ghost use Rattle.std.specs.Bool.{MatchBool};
ghost use Rattle.std.specs.List.{flat_map, AllByRecursion as Each};
ghost use Rattle.nz_vec.specs.Texts.{Text};
ghost use Rattle.nz_spec.specs.Vectors.{Vector};
ghost use Rattle.nz_blocks.specs.Beginnings.{First, IsOpening, LeadsNumber, BeginsBlock, unspaced};
ghost use Rattle.nz_blocks.specs.Columns.{cells, spaced};
ghost use Rattle.nz_blocks.specs.Held.{IsHeldRow, IsHeldList, AreHeldRows};
ghost use Rattle.nz_blocks.specs.Output.{row_text, heading_lines, block_if_some};

use crate::reading_numbers::{Found, behind_spaces, digits, is_at, is_digit_at, number};
use crate::refusal::BlockRefusal;
use nz_vec::{Row, Rows};
use std::alloc::Global;

// Whether a digit or a minus stands there.
fn opens_at(text: &[u8], place: usize) -> bool
    ensures { MatchBool result (First IsOpening (drop place text.now)) (¬ First IsOpening (drop place text.now)) }
{
    if is_digit_at(text, place) {
        return true;
    }
    is_at(text, place, b'-')
}

/// The numbers that stand there, each behind any spaces, and the place behind the spaces that follow.
pub fn numbers(alloc: Global, text: &[u8], from: usize) -> Result<Found<Row<i128>>, BlockRefusal>
    ensures { (width : ℕ → ℕ) (r : Vector) (s : Text) → IsHeldRow r → ¬ LeadsNumber s → drop from text.now ≡ spaced (cells width 0 r) ++ s → MatchResult result (λ f. (f.value ≡ r) × (drop f.next text.now ≡ unspaced s)) (λ e. e ≡ BlockRefusal.NoMemory) }
{
    let mut entries = Vec::new(alloc);
    let mut place = behind_spaces(text, from);
    'entries: while opens_at(text, place) {
        let entry = match number(text, place) {
            Some(entry) => entry,
            None => return Err(BlockRefusal::Bad),
        };
        match entries.push(entry.value) {
            Ok(()) => {}
            Err(_) => return Err(BlockRefusal::NoMemory),
        }
        place = behind_spaces(text, entry.next);
    }
    Ok(Found {
        value: Row::from_vec(entries),
        next: place,
    })
}

/// The row of a line.
pub fn row(alloc: Global, text: &[u8], from: usize) -> Result<Found<Row<i128>>, BlockRefusal>
    ensures { (rows : List Vector) (r : Vector) (s : Text) → IsHeldRow r → drop from text.now ≡ row_text rows r ++ s → MatchResult result (λ f. (f.value ≡ r) × (drop f.next text.now ≡ s)) (λ e. e ≡ BlockRefusal.NoMemory) }
{
    let entries = match numbers(alloc, text, from) {
        Ok(entries) => entries,
        Err(refusal) => return Err(refusal),
    };
    if is_at(text, entries.next, b'\n') {
        return Ok(Found {
            value: entries.value,
            next: entries.next + 1,
        });
    }
    Err(BlockRefusal::Bad)
}

/// So many rows, each on its line.
pub fn rows(
    alloc: Global,
    text: &[u8],
    from: usize,
    count: usize,
) -> Result<Found<Rows<i128>>, BlockRefusal>
    ensures { (all xs : List Vector) (s : Text) → Each IsHeldRow xs → length xs ≡ count → drop from text.now ≡ flat_map (row_text all) xs ++ s → MatchResult result (λ f. (f.value ≡ xs) × (drop f.next text.now ≡ s)) (λ e. e ≡ BlockRefusal.NoMemory) }
{
    let mut rows = Rows::new(alloc);
    let mut place = from;
    for _index in 0..count {
        let found = match row(alloc, text, place) {
            Ok(found) => found,
            Err(refusal) => return Err(refusal),
        };
        match rows.push(found.value) {
            Ok(()) => {}
            Err(_) => return Err(BlockRefusal::NoMemory),
        }
        place = found.next;
    }
    Ok(Found {
        value: rows,
        next: place,
    })
}
