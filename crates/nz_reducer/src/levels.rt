// Words of bits that show in one step that an entry is not at most given values.
ghost use Rattle.std.specs.Prelude.{◌≡◌, ◌≢◌, ◌<◌, ◌^◌, length, IfOk, MatchBool};
ghost use Rattle.std.specs.Int.Bits.{bit_and, bit_or};
ghost use Rattle.nz_reducer.specs.Levels.{AreLevels, IsWordOf};

use crate::marks::is_at_most;
use nz_vec::{NoMemory, Row, Scalar};
use std::alloc::Global;

/// A value that an entry may reach in a column. What is at most given values reaches no level that
/// these do not reach.
#[derive(Drop)]
pub(crate) struct Level<T: Scalar> {
    pub(crate) column: usize,
    pub(crate) value: T,
}

/// The level of this bit.
fn level_at<T: Scalar>(bit: usize, width: usize) -> Level<T>
    requires { 0 < width }
    ensures { result.column < width }
{
    let doublings = (bit / width).min(62);
    Level {
        column: bit % width,
        value: T::of_i64(1 << doublings),
    }
}

/// The levels 1, 2, 4 and so on, as many in each column as a word has bits for; 1 alone in the first
/// 64 columns where there are more.
pub(crate) fn levels_for<T: Scalar>(alloc: Global, width: usize) -> Result<Vec<Level<T>>, NoMemory>
    ensures { IfOk result (λ v. AreLevels (λ l. l.column) width v.items) }
{
    let mut levels = Vec::new(alloc);
    if width == 0 {
        return Ok(levels);
    }
    for bit in 0..64 {
        match levels.push(level_at(bit, width)) {
            Ok(()) => {}
            Err(_) => return Err(NoMemory),
        }
    }
    Ok(levels)
}

/// The word with this bit.
fn with_bit(word: u64, bit: usize) -> u64
    requires { bit < 64 }
    ensures { result ≡ bit_or word (2 ^ bit) }
{
    word | (1 << bit)
}

/// Whether each bit of the first word is one of the second.
pub(crate) fn is_within(part: u64, whole: u64) -> bool
    ensures { MatchBool result (bit_and part whole ≡ part) (bit_and part whole ≢ part) }
{
    part & whole == part
}

/// The bits of the levels that the values reach.
pub(crate) fn word_of<T: Scalar>(levels: &[Level<T>], values: &Row<T>) -> u64
    requires { AreLevels (λ l. l.column) (length values.now) levels.now }
    ensures { IsWordOf (λ l. l.column) (λ l. T.integer l.value) levels.now values.now result }
{
    let mut word = 0;
    for index in 0..levels.len() {
        let level = &levels[index];
        if !is_at_most(level.value, values.at(level.column)) {
            continue;
        }
        word = with_bit(word, index);
    }
    word
}
