//! Single words, and rows of them.
ghost use Rattle.std.specs.Prelude.{◌≡◌, ◌≢◌, ℕ, ℤ, ◌^◌, ◌<◌, ◌∷◌, [], List, Some, length, map};
ghost use Rattle.std.specs.Bool.{MatchBool};
ghost use Rattle.std.specs.List.{AllByRecursion as Each};
ghost use Rattle.nz_spec.specs.Vectors.{Vector, HasWidth};
ghost use Rattle.nz_further.specs.Certificates.{IsHeldNumber, AreHeld};
ghost use Rattle.nz_further.specs.CertificateTexts.{Bytes, Name, Count, Entry, entries};
ghost use Rattle.nz_cert.specs.Readings.{IsOption, IsReading, IsHeldVector, AreHeldVectors};

use crate::CertTextRefusal;
use crate::numbers::{integer, number};
use crate::scan::Words;
use nz_vec::{Row, Rows};
use std::alloc::Global;

/// Takes the next word, where it is this name.
pub fn take_name(words: &mut Words<'_>, name: &[u8]) -> bool
    ensures { MatchBool result (words.old ≡ name.now ∷ words.new) ((rest : List Bytes) → words.old ≢ name.now ∷ rest) }
{
    match words.take_word() {
        Some(word) => word == name,
        None => false,
    }
}

/// Takes the next word, where it writes a number less than 2^64.
pub fn take_count(words: &mut Words<'_>) -> Option<u64>
    ensures { IsOption (λ n. n < 2 ^ 64) (λ n. Count n ∷ []) words.old words.new result }
{
    match words.take_word() {
        Some(word) => number(word),
        None => None,
    }
}

/// Takes the next word, where it writes an integer that a certificate may hold.
fn take_entry(words: &mut Words<'_>) -> Option<i128>
    ensures { IsOption IsHeldNumber (λ a. Entry a ∷ []) words.old words.new result }
{
    match words.take_word() {
        Some(word) => integer(word),
        None => None,
    }
}

/// Takes the numbers of a vector.
fn take_vector(
    alloc: Global,
    words: &mut Words<'_>,
    width: usize,
) -> Result<Row<i128>, CertTextRefusal>
    ensures { IsReading (IsHeldVector width) (map Entry) words.old words.new result }
{
    let mut entries = Vec::new(alloc);
    for _column in 0..width {
        let entry = match take_entry(words) {
            Some(entry) => entry,
            None => return Err(CertTextRefusal::Bad),
        };
        match entries.push(entry) {
            Ok(()) => {}
            Err(_) => return Err(CertTextRefusal::NoMemory),
        }
    }
    Ok(Row::from_vec(entries))
}

/// Takes the numbers of so many vectors.
pub fn take_vectors(
    alloc: Global,
    words: &mut Words<'_>,
    width: usize,
    count: u64,
) -> Result<Rows<i128>, CertTextRefusal>
    ensures { IsReading (AreHeldVectors width count) entries words.old words.new result }
{
    let mut vectors = Rows::new(alloc);
    for _index in 0..count {
        let vector = match take_vector(alloc, words, width) {
            Ok(vector) => vector,
            Err(refusal) => return Err(refusal),
        };
        match vectors.push(vector) {
            Ok(()) => {}
            Err(_) => return Err(CertTextRefusal::NoMemory),
        }
    }
    Ok(vectors)
}
