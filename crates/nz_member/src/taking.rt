//! Taking elements away from a vector of which only the values of the rows are kept: what is left
//! of the vector itself may have entries that the type does not have.
ghost use Rattle.std.specs.Prelude.{◌≡◌, ℤ, ◌-ℤ◌, ◌*ℤ◌, length, map, IfOk, OnOk, Err, MatchResult};
ghost use Rattle.std.specs.List.{AllByRecursion as Each};
ghost use Rattle.nz_spec.specs.Vectors.{values_at, minus, scaled};
ghost use Rattle.nz_member.specs.Amounts.{rows_of, AreAmounts, CanLessen, IsLessened, LeaveValues};
ghost use Rattle.nz_member.specs.Values.{IsElementOf, LacksValue};
ghost use Rattle.nz_member.specs.Replies.{LacksValueAt};

use crate::heights::values_of;
use crate::parts::times;
use nz_vec::{Constraints, NoMemory, Num, Row, Rows, Scalar};
use std::alloc::Global;

// Takes each element in turn as often as it can be taken; the values become those of what is left.
// Answers how often each is taken.
pub(crate) fn take_elements<T: Scalar>(
    alloc: Global,
    constraints: &Constraints<T>,
    hilbert: &Rows<T>,
    values: &mut Vec<T>,
) -> Result<Vec<T>, Num>
    requires elements { Each (IsElementOf constraints.now) hilbert.now }
    requires amounts { AreAmounts T.fits (length (rows_of constraints.now)) (map T.integer values.old.items) }
    ensures taken { IfOk result (λ counts. LeaveValues (rows_of constraints.now) hilbert.now (map T.integer values.old.items) (map T.integer counts.items) (map T.integer values.new.items)) }
    ensures range { result ≡ Err Num.Range → LacksValueAt T.fits constraints.now hilbert.now }
{
    let mut counts = Vec::new(alloc);
    for place in 0..hilbert.len() {
        let count = match take_element(alloc, constraints, hilbert.at(place), values) {
            Ok(count) => count,
            Err(refusal) => return Err(refusal),
        };
        match counts.push(count) {
            Ok(()) => {}
            Err(_) => return Err(Num::NoMemory),
        }
    }
    Ok(counts)
}

// Takes the element as often as it can be taken, and answers how often that is.
fn take_element<T: Scalar>(
    alloc: Global,
    constraints: &Constraints<T>,
    element: &Row<T>,
    values: &mut Vec<T>,
) -> Result<T, Num>
    requires element { IsElementOf constraints.now element.now }
    requires amounts { AreAmounts T.fits (length (rows_of constraints.now)) (map T.integer values.old.items) }
    ensures taken { IfOk result (λ count. IsLessened (values_at (rows_of constraints.now) element.now) (map T.integer values.old.items) (T.integer count) (map T.integer values.new.items)) }
    ensures amounts { OnOk result (AreAmounts T.fits (length (rows_of constraints.now)) (map T.integer values.new.items)) }
    ensures range { result ≡ Err Num.Range → LacksValue T.fits constraints.now element.now }
{
    let heights = match values_of(alloc, constraints, element) {
        Ok(heights) => heights,
        Err(refusal) => return Err(refusal),
    };
    let count = times(heights.as_slice(), values.as_slice());
    match lessened(alloc, values.as_slice(), heights.as_slice(), count) {
        Ok(rest) => {
            *values = rest;
            Ok(count)
        }
        Err(NoMemory) => Err(Num::NoMemory),
    }
}

// The values that are left when the heights are taken so often.
fn lessened<T: Scalar>(
    alloc: Global,
    values: &[T],
    heights: &[T],
    count: T,
) -> Result<Vec<T>, NoMemory>
    requires { CanLessen T.fits (T.integer count) (map T.integer heights.now) (map T.integer values.now) }
    ensures { IfOk result (λ rest. map T.integer rest.items ≡ minus (map T.integer values.now) (scaled (T.integer count) (map T.integer heights.now))) }
{
    let mut rest = Vec::new(alloc);
    for place in 0..values.len() {
        match rest.push(left_of(values[place], heights[place], count)) {
            Ok(()) => {}
            Err(_) => return Err(NoMemory),
        }
    }
    Ok(rest)
}

// The value that is left.
fn left_of<T: Scalar>(value: T, height: T, count: T) -> T
    requires taken { T.fits (T.integer count *ℤ T.integer height) }
    requires left { T.fits (T.integer value -ℤ T.integer count *ℤ T.integer height) }
    ensures { T.integer result ≡ T.integer value -ℤ T.integer count *ℤ T.integer height }
{
    value.try_sub(count.try_mul(height).unwrap()).unwrap()
}
