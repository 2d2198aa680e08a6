//! The numbers in front.
ghost use Rattle.std.specs.Prelude.{◌≡◌, ◌∷◌, List};
ghost use Rattle.nz_cert.specs.Readings.{IsOption};
ghost use Rattle.nz_cert.specs.Fields.{AreSizes, IsAllowed, size_words};

use crate::fields::{take_count, take_name};
use crate::scan::Words;

/// The entries of a vector, the first rows, and all rows.
#[derive(Clone, Copy, Drop)]
pub struct Sizes {
    pub width: u32,
    pub rank: u32,
    pub rows: u64,
}

// The sizes, where a certificate may have them.
fn sizes_of(width: u64, rank: u64, rows: u64) -> Option<Sizes>
    ensures { IsAllowed width rank rows result }
{
    if width == 0 || width > 65 || rank > width || rank > rows {
        return None;
    }
    Some(Sizes {
        width: width as u32,
        rank: rank as u32,
        rows,
    })
}

/// Takes the name of the format, and the sizes.
pub fn take_sizes(words: &mut Words<'_>) -> Option<Sizes>
    ensures { IsOption AreSizes size_words words.old words.new result }
{
    if !take_name(words, b"nmzcert".as_slice()) {
        return None;
    }
    let width = match take_count(words) {
        Some(width) => width,
        None => return None,
    };
    let rank = match take_count(words) {
        Some(rank) => rank,
        None => return None,
    };
    let rows = match take_count(words) {
        Some(rows) => rows,
        None => return None,
    };
    sizes_of(width, rank, rows)
}
