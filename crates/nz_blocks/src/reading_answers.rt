//! Asked lines at a place of a text.
ghost use Rattle.std.specs.Prelude.{◌≡◌, ℕ, ℤ, pos, ◌+◌, ◌<◌, ◌≤◌, ◌≤ℤ◌, ◌^◌, ◌++◌, ◌∷◌, Option, Some, None, List, decimal, drop, length, suc, MatchOption, MatchResult, IfSome, FitsSigned};
ghost use Rattle.std.specs.Int.{w128};
ghost use Rattle.std.specs.List.{AllByRecursion as Each};
ghost use Rattle.nz_vec.specs.Texts.{Text};
ghost use Rattle.nz_spec.specs.Vectors.{Vector};
ghost use Rattle.nz_blocks.specs.Beginnings.{First, IsDigit};
ghost use Rattle.nz_blocks.specs.AskedLines.{count_words, module_word};
ghost use Rattle.nz_blocks.specs.Readings.{NamesPlace, IsNamed};

use crate::reading_blocks::behind;
use crate::reading_numbers::{Found, digits, is_at};
use crate::refusal::BlockRefusal;
use nz_vec::Row;
use std::alloc::Global;

/// How often the element at a place of the Hilbert basis, from 1, is taken.
#[derive(Clone, Copy, Drop)]
pub struct CountWord {
    pub count: u128,
    pub place: u128,
}

// The place of an element, behind its letter.
fn place_word(text: &[u8], from: usize) -> Option<Found<u128>>
    ensures whole { (k : ℕ) (s : Text) → k < 2 ^ 128 → ¬ First IsDigit s → drop from text.now ≡ 42 ∷ 104 ∷ (decimal k ++ s) → MatchOption result ⊥ (λ f. (f.value ≡ k) × (drop f.next text.now ≡ s)) }
    ensures named { IfSome result (λ f. IsNamed f.value (drop from text.now)) }
{
    match behind(text, from, b"*h".as_slice()) {
        Some(start) => digits(text, start),
        None => None,
    }
}

// The count and the place of the word that stands there.
fn count_word_at(text: &[u8], from: usize) -> Option<Found<CountWord>>
    ensures whole { (n k : ℕ) (s : Text) → n < 2 ^ 128 → k < 2 ^ 128 → ¬ First IsDigit s → drop from text.now ≡ 32 ∷ (decimal n ++ (42 ∷ 104 ∷ (decimal k ++ s))) → MatchOption result ⊥ (λ f. (f.value.count ≡ n) × (f.value.place ≡ k) × (drop f.next text.now ≡ s)) }
    ensures named { IfSome result (λ f. NamesPlace f.value.place (drop from text.now)) }
{
    if !is_at(text, from, b' ') {
        return None;
    }
    let count = match digits(text, from + 1) {
        Some(count) => count,
        None => return None,
    };
    match place_word(text, count.next) {
        Some(place) => Some(Found {
            value: CountWord {
                count: count.value,
                place: place.value,
            },
            next: place.next,
        }),
        None => None,
    }
}

// How often the element at this place, from 1, is taken: 0 where no word names it.
fn count_at(text: &[u8], from: usize, place: u128) -> Found<i128>
    ensures named { (n : ℕ) (s : Text) → suc n < 2 ^ 127 → ¬ First IsDigit s → drop from text.now ≡ 32 ∷ (decimal (suc n) ++ (42 ∷ 104 ∷ (decimal place ++ s))) → (result.value ≡ pos (suc n)) × (drop result.next text.now ≡ s) }
    ensures other { ¬ NamesPlace place (drop from text.now) → (result.value ≡ pos 0) × (result.next ≡ from) }
{
    let none = Found {
        value: 0,
        next: from,
    };
    let word = match count_word_at(text, from) {
        Some(word) => word,
        None => return none,
    };
    if word.value.place != place {
        return none;
    }
    if word.value.count < 170_141_183_460_469_231_731_687_303_715_884_105_728 {
        return Found {
            value: word.value.count as i128,
            next: word.next,
        };
    }
    none
}

/// A count for each element of the Hilbert basis.
pub fn counts(
    alloc: Global,
    text: &[u8],
    from: usize,
    size: usize,
) -> Result<Found<Row<i128>>, BlockRefusal>
    ensures { (cs : Vector) (m : Option ℕ) (s : Text) → length cs ≡ size → Each (FitsSigned w128) cs → Each (λ c. pos 0 ≤ℤ c) cs → drop from text.now ≡ count_words 1 cs ++ (module_word m ++ 10 ∷ s) → MatchResult result (λ f. (f.value ≡ cs) × (drop f.next text.now ≡ module_word m ++ 10 ∷ s)) (λ e. e ≡ BlockRefusal.NoMemory) }
{
    let mut entries = Vec::new(alloc);
    let mut place = from;
    for index in 0..size {
        let found = count_at(text, place, index as u128 + 1);
        match entries.push(found.value) {
            Ok(()) => {}
            Err(_) => return Err(BlockRefusal::NoMemory),
        }
        place = found.next;
    }
    Ok(Found {
        value: Row::from_vec(entries),
        next: place,
    })
}

// The place counted from 0.
fn from_zero(place: u128) -> Option<usize>
    ensures { (p : ℕ) → p + 1 < 2 ^ 64 → place ≡ p + 1 → result ≡ Some p }
{
    if place == 0 {
        return None;
    }
    if place > 18_446_744_073_709_551_615 {
        return None;
    }
    Some(place as usize - 1)
}

/// The place of a module generator, from 0, or None where no word names one.
pub fn module_at(text: &[u8], from: usize) -> Option<Found<Option<usize>>>
    ensures { (m : Option ℕ) (s : Text) → IfSome m (λ p. p + 1 < 2 ^ 64) → drop from text.now ≡ module_word m ++ 10 ∷ s → MatchOption result ⊥ (λ f. (f.value ≡ m) × (drop f.next text.now ≡ 10 ∷ s)) }
{
    let start = match behind(text, from, b" m".as_slice()) {
        Some(start) => start,
        None => {
            return Some(Found {
                value: None,
                next: from,
            });
        }
    };
    let place = match digits(text, start) {
        Some(place) => place,
        None => return None,
    };
    match from_zero(place.value) {
        Some(value) => Some(Found {
            value: Some(value),
            next: place.next,
        }),
        None => None,
    }
}
