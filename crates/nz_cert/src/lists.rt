//! Lists of vectors with their numbers.
ghost use Rattle.std.specs.Prelude.{◌≡◌, ◌∷◌, List, length};
ghost use Rattle.nz_further.specs.Certificates.{AreHeld};
ghost use Rattle.nz_further.specs.CertificateTexts.{Count, entries, list_words};
ghost use Rattle.nz_cert.specs.Readings.{IsReading, AreHeldVectors, ray_words};

use crate::CertTextRefusal;
use crate::fields::{take_count, take_name, take_vectors};
use crate::scan::Words;
use nz_vec::Rows;
use std::alloc::Global;

// How many vectors a list has at most.
const MOST: u64 = 250_000;

/// Takes the number of a list, and its vectors.
pub fn take_list(
    alloc: Global,
    words: &mut Words<'_>,
    width: usize,
) -> Result<Rows<i128>, CertTextRefusal>
    ensures { IsReading (AreHeld width) (λ vs. Count (length vs) ∷ entries vs) words.old words.new result }
{
    match take_count(words) {
        Some(count) => {
            if count <= MOST {
                take_vectors(alloc, words, width, count)
            } else {
                Err(CertTextRefusal::Bad)
            }
        }
        None => Err(CertTextRefusal::Bad),
    }
}

/// Takes the name of a list, its number, and its vectors.
pub fn take_named_list(
    alloc: Global,
    words: &mut Words<'_>,
    name: &[u8],
    width: usize,
) -> Result<Rows<i128>, CertTextRefusal>
    ensures { IsReading (AreHeld width) (list_words name.now) words.old words.new result }
{
    if take_name(words, name) {
        take_list(alloc, words, width)
    } else {
        Err(CertTextRefusal::Bad)
    }
}

/// Takes the rays, one for each of the first rows.
pub fn take_rays(
    alloc: Global,
    words: &mut Words<'_>,
    width: usize,
    rank: u64,
) -> Result<Rows<i128>, CertTextRefusal>
    ensures { IsReading (AreHeldVectors width rank) ray_words words.old words.new result }
{
    if take_name(words, b"rays".as_slice()) {
        take_vectors(alloc, words, width, rank)
    } else {
        Err(CertTextRefusal::Bad)
    }
}
