//! What is left of values when entries of a table are taken away from them.
ghost use Rattle.std.specs.Prelude.{◌≡◌, ℤ, pos, ◌-ℤ◌, ◌<ℤ◌, ◌≤ℤ◌, length, IfOk, MatchOption};
ghost use Rattle.std.specs.Bool.{MatchBool};
ghost use Rattle.std.specs.List.{AllByRecursion as Each};
ghost use Rattle.nz_spec.specs.Vectors.{minus, HasWidth, IsZero, IsNonzero};
ghost use Rattle.nz_order.specs.Boxes.{NonNegative, IsBelow};
ghost use Rattle.nz_further.specs.Certificates.{IsReducedOver};
ghost use Rattle.nz_reducer.specs.Tables.{NoneIsBelow, IsFirstBelow};

use nz_vec::{NoMemory, Row, Rows, Scalar, is_nonzero};
use std::alloc::Global;

// Whether the first value is above the second.
fn is_above<T: Scalar>(a: T, b: T) -> bool
    ensures { MatchBool result (T.integer b <ℤ T.integer a) (T.integer a ≤ℤ T.integer b) }
{
    a > b
}

/// Whether each value of the first row is at most that of the second.
pub fn is_below<T: Scalar>(low: &Row<T>, high: &Row<T>) -> bool
    requires { length low.now ≡ length high.now }
    ensures { MatchBool result (IsBelow low.now high.now) (¬ IsBelow low.now high.now) }
{
    for column in 0..low.len() {
        if is_above(low.at(column), high.at(column)) {
            return false;
        }
    }
    true
}

// The least place whose entry is at most these values in every column.
fn first_below<T: Scalar>(table: &Rows<T>, values: &Row<T>) -> Option<usize>
    requires { Each (HasWidth (length values.now)) table.now }
    ensures { MatchOption result (NoneIsBelow table.now values.now) (IsFirstBelow table.now values.now) }
{
    for place in 0..table.len() {
        if is_below(table.at(place), values) {
            return Some(place);
        }
    }
    None
}

fn less(a: i128, b: i128) -> i128
    requires positive { pos 0 ≤ℤ b }
    requires below { b ≤ℤ a }
    ensures { result ≡ a -ℤ b }
{
    a - b
}

// The values less those of an entry that is at most these in every column.
fn difference(alloc: Global, values: &Row<i128>, entry: &Row<i128>) -> Result<Row<i128>, NoMemory>
    requires entry { NonNegative entry.now }
    requires below { IsBelow entry.now values.now }
    ensures { IfOk result (λ d. d ≡ minus values.now entry.now) }
{
    let mut entries = Vec::new(alloc);
    for column in 0..values.len() {
        match entries.push(less(values.at(column), entry.at(column))) {
            Ok(()) => {}
            Err(_) => return Err(NoMemory),
        }
    }
    Ok(Row::from_vec(entries))
}

/// Whether each value is 0.
pub fn is_zero_row<T: Scalar>(values: &Row<T>) -> bool
    ensures { MatchBool result (IsZero values.now) (¬ IsZero values.now) }
{
    for column in 0..values.len() {
        if is_nonzero(values.at(column)) {
            return false;
        }
    }
    true
}

/// Whether taking away, again and again, the first entry that is at most the values in every column
/// ends at 0.
pub fn is_reduced(alloc: Global, table: &Rows<i128>, values: &Row<i128>) -> Result<bool, NoMemory>
    requires wide { Each (HasWidth (length values.now)) table.now }
    requires entries { Each NonNegative table.now }
    requires nonzero { Each IsNonzero table.now }
    requires values { NonNegative values.now }
    ensures { IfOk result (λ yes. MatchBool yes (IsReducedOver NonNegative table.now values.now) (¬ IsReducedOver NonNegative table.now values.now)) }
{
    let mut left = match values.try_copy() {
        Ok(left) => left,
        Err(refusal) => return Err(refusal),
    };
    'takings: loop {
        let place = match first_below(table, &left) {
            Some(place) => place,
            None => return Ok(is_zero_row(&left)),
        };
        left = match difference(alloc, &left, table.at(place)) {
            Ok(less) => less,
            Err(refusal) => return Err(refusal),
        };
    }
}
