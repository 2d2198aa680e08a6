//! The lists of the rows after the first ones.
ghost use Rattle.std.specs.Prelude.{◌≡◌, ℕ, ◌+◌, ◌^◌, ◌<◌, ◌≤◌, ◌∷◌, [], List, length};
ghost use Rattle.nz_further.specs.CertificateTexts.{Count};
ghost use Rattle.nz_cert.specs.Readings.{IsReading};
ghost use Rattle.nz_cert.specs.Fields.{AreStages, AreSides, AreTaken, side_words, two_sided_words};

use crate::CertTextRefusal;
use crate::fields::{take_count, take_name};
use crate::lists::{take_list, take_named_list};
use crate::scan::Words;
use nz_vec::{RowLists, Rows};
use std::alloc::Global;

/// The lists of one row.
#[derive(Drop)]
pub struct Sides {
    pub plus: Rows<i128>,
    pub minus: Rows<i128>,
}

/// The lists of all rows after the first ones.
#[derive(Drop)]
pub struct Stages {
    pub plus: RowLists<i128>,
    pub minus: RowLists<i128>,
}

fn take_number(words: &mut Words<'_>, number: u64) -> bool
    ensures { AreTaken (Count number ∷ []) words.old words.new result }
{
    match take_count(words) {
        Some(count) => count == number,
        None => false,
    }
}

/// Takes the lists of the row of this number.
fn take_sides(
    alloc: Global,
    words: &mut Words<'_>,
    width: usize,
    number: u64,
) -> Result<Sides, CertTextRefusal>
    ensures { IsReading (AreSides width) (side_words number) words.old words.new result }
{
    if !take_name(words, b"stage".as_slice()) {
        return Err(CertTextRefusal::Bad);
    }
    if !take_number(words, number) {
        return Err(CertTextRefusal::Bad);
    }
    let plus = match take_list(alloc, words, width) {
        Ok(plus) => plus,
        Err(refusal) => return Err(refusal),
    };
    match take_named_list(alloc, words, b"reversed".as_slice(), width) {
        Ok(minus) => Ok(Sides { plus, minus }),
        Err(refusal) => Err(refusal),
    }
}

/// Takes the lists of the rows after the first `rank` ones.
pub fn take_stages(
    alloc: Global,
    words: &mut Words<'_>,
    width: usize,
    rank: u64,
    rows: u64,
) -> Result<Stages, CertTextRefusal>
    requires { rank ≤ rows }
    ensures { IsReading (AreStages width rank rows) (two_sided_words rank) words.old words.new result }
{
    let mut plus = RowLists::new(alloc);
    let mut minus = RowLists::new(alloc);
    for earlier in rank..rows {
        let sides = match take_sides(alloc, words, width, earlier + 1) {
            Ok(sides) => sides,
            Err(refusal) => return Err(refusal),
        };
        match plus.push(sides.plus) {
            Ok(()) => {}
            Err(_) => return Err(CertTextRefusal::NoMemory),
        }
        match minus.push(sides.minus) {
            Ok(()) => {}
            Err(_) => return Err(CertTextRefusal::NoMemory),
        }
    }
    Ok(Stages { plus, minus })
}
