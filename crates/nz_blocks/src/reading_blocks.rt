//! Blocks of rows at a place of a text.
ghost use Rattle.std.specs.Prelude.{◌≡◌, ◌≢◌, ℕ, ℤ, ◌+◌, ◌<◌, ◌≤◌, ◌^◌, ◌++◌, ◌∷◌, decimal, Option, Some, None, List, drop, length, MatchOption, MatchResult, FitsSigned};
ghost use Rattle.std.specs.Int.{w128};
ghost use Rattle.std.specs.Fmt.{signed_decimal};
ghost use Rattle.nz_vec.specs.Texts.{Text};
ghost use Rattle.nz_spec.specs.Vectors.{Vector};
ghost use Rattle.nz_blocks.specs.Beginnings.{First, IsHeading, BeginsBlock};
ghost use Rattle.nz_blocks.specs.Held.{AreHeldRows};
ghost use Rattle.nz_blocks.specs.Output.{heading_lines, block_if_some};

use crate::reading_numbers::{Found, digits, is_at, number};
use crate::reading_rows::rows;
use crate::refusal::BlockRefusal;
use nz_vec::Rows;
use std::alloc::Global;

/// The place behind these bytes, where they stand there.
pub fn behind(text: &[u8], from: usize, bytes: &[u8]) -> Option<usize>
    ensures { MatchOption result ((t : Text) → drop from text.now ≢ bytes.now ++ t) (λ next. drop from text.now ≡ bytes.now ++ drop next text.now) }
{
    let mut place = from;
    for index in 0..bytes.len() {
        if !is_at(text, place, bytes[index]) {
            return None;
        }
        place += 1;
    }
    Some(place)
}

/// The number that stands there, with an end of line behind it.
pub fn number_line(text: &[u8], from: usize) -> Option<Found<i128>>
    ensures { (z : ℤ) (s : Text) → FitsSigned w128 z → drop from text.now ≡ signed_decimal z ++ 10 ∷ s → MatchOption result ⊥ (λ f. (f.value ≡ z) × (drop f.next text.now ≡ s)) }
{
    let found = match number(text, from) {
        Some(found) => found,
        None => return None,
    };
    if is_at(text, found.next, b'\n') {
        return Some(Found {
            value: found.value,
            next: found.next + 1,
        });
    }
    None
}

// The number of digits that stand there, with this heading and an end of line.
fn heading_line(text: &[u8], from: usize, heading: &[u8]) -> Option<Found<u128>>
    ensures found { (n : ℕ) (s : Text) → n < 2 ^ 64 → IsHeading heading.now → drop from text.now ≡ decimal n ++ (heading.now ++ 10 ∷ s) → MatchOption result ⊥ (λ f. (f.value ≡ n) × (drop f.next text.now ≡ s)) }
    ensures absent { ¬ BeginsBlock heading.now (10 ∷ drop from text.now) → result ≡ None }
{
    let count = match digits(text, from) {
        Some(count) => count,
        None => return None,
    };
    let next = match behind(text, count.next, heading) {
        Some(next) => next,
        None => return None,
    };
    if is_at(text, next, b'\n') {
        return Some(Found {
            value: count.value,
            next: next + 1,
        });
    }
    None
}

/// The number of rows, where an empty line and this heading stand there.
pub fn heading_at(text: &[u8], from: usize, heading: &[u8]) -> Option<Found<usize>>
    ensures found { (n : ℕ) (s : Text) → n < 2 ^ 64 → IsHeading heading.now → drop from text.now ≡ heading_lines n heading.now ++ s → MatchOption result ⊥ (λ f. (f.value ≡ n) × (drop f.next text.now ≡ s)) }
    ensures absent { ¬ BeginsBlock heading.now (drop from text.now) → result ≡ None }
{
    if !is_at(text, from, b'\n') {
        return None;
    }
    let count = match heading_line(text, from + 1, heading) {
        Some(count) => count,
        None => return None,
    };
    if count.value <= 18_446_744_073_709_551_615 {
        return Some(Found {
            value: count.value as usize,
            next: count.next,
        });
    }
    None
}

/// The rows under this heading, or None where it does not stand there.
pub fn block(
    alloc: Global,
    text: &[u8],
    from: usize,
    heading: &[u8],
) -> Result<Found<Option<Rows<i128>>>, BlockRefusal>
    ensures { (xs : Option (List Vector)) (s : Text) → IsHeading heading.now → AreHeldRows xs → ¬ BeginsBlock heading.now s → drop from text.now ≡ block_if_some heading.now xs ++ s → MatchResult result (λ f. (f.value ≡ xs) × (drop f.next text.now ≡ s)) (λ e. e ≡ BlockRefusal.NoMemory) }
{
    let count = match heading_at(text, from, heading) {
        Some(count) => count,
        None => {
            return Ok(Found {
                value: None,
                next: from,
            });
        }
    };
    match rows(alloc, text, count.next, count.value) {
        Ok(rows) => Ok(Found {
            value: Some(rows.value),
            next: rows.next,
        }),
        Err(refusal) => Err(refusal),
    }
}
