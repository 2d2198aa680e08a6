// Vectors of a base with the values of a form at them.
ghost use Rattle.std.specs.Prelude.{◌≡◌, ◌<◌, ◌≤ℤ◌, ◌<ℤ◌, ◌↔◌, ◌⊎◌, pos, length, unsigned_abs, IsTrue, MatchOption, MatchResult};
ghost use Rattle.std.specs.List.{AllByRecursion as Each};
ghost use Rattle.nz_spec.specs.Vectors.{dot, HasWidth};
ghost use Rattle.nz_sweep.specs.Clearing.{Valued as ValuedVector, vectors_of};
ghost use Rattle.nz_range.specs.Measures.{pair_measure};
ghost use Rattle.nz_sweep.specs.Cuts.{AreValued, IsValueAt, IsRemainder, IsRemainderAt};
ghost use Rattle.nz_sweep.specs.Numbers.{SomeNumberLarge, IsMeasureOf};

use crate::floors::floor;
use nz_vec::{Num, Row, Scalar};
use std::alloc::Global;
use std::marker::Model;

/// A vector and its value.
#[derive(Drop)]
pub(crate) struct Valued<T: Scalar> {
    pub(crate) row: Row<T>,
    pub(crate) value: T,
}

impl<T: Scalar> Model for Valued<T> {
    ghost use Rattle.nz_sweep.specs.Clearing.{Valued as ValuedVector};

    ghost Value = { ValuedVector };

    ghost view = { λ v. record { vector = v.row; value = T.integer v.value } };
}

/// The vectors with the values of the form at them.
pub(crate) fn with_values<T: Scalar>(
    alloc: Global,
    base: &[Row<T>],
    form: &Row<T>,
) -> Result<Vec<Valued<T>>, Num>
    requires { Each (HasWidth (length form.now)) base.now }
    ensures { MatchResult result (λ v. AreValued (IsValueAt form.now) base.now v.items) (λ e. e ≡ Num.Range → SomeNumberLarge T.HALF (IsMeasureOf form.now base.now)) }
{
    let mut list = match Vec::with_capacity(alloc, base.len()) {
        Ok(list) => list,
        Err(_) => return Err(Num::NoMemory),
    };
    for place in 0..base.len() {
        match with_value(&base[place], form) {
            Ok(valued) => list.push_reserved(valued),
            Err(refusal) => return Err(refusal),
        }
    }
    Ok(list)
}

fn with_value<T: Scalar>(row: &Row<T>, form: &Row<T>) -> Result<Valued<T>, Num>
    requires { length row.now ≡ length form.now }
    ensures { MatchResult result (λ v. (v.vector ≡ row.now) × (v.value ≡ dot form.now row.now)) (λ e. e ≡ Num.Range → T.HALF <ℤ pos (pair_measure form.now row.now)) }
{
    let value = match form.dot(row) {
        Some(value) => value,
        None => return Err(Num::Range),
    };
    match row.try_copy() {
        Ok(row) => Ok(Valued { row, value }),
        Err(refusal) => Err(Num::from(refusal)),
    }
}

/// The vectors with the remainders by the modulus of the values of the form at them.
pub(crate) fn with_remainders<T: Scalar>(
    alloc: Global,
    base: &[Row<T>],
    form: &Row<T>,
    modulus: T,
) -> Result<Vec<Valued<T>>, Num>
    requires modulus { pos 1 ≤ℤ T.integer modulus }
    requires widths { Each (HasWidth (length form.now)) base.now }
    ensures { MatchResult result (λ v. AreValued (IsRemainderAt form.now (T.integer modulus)) base.now v.items) (λ e. e ≡ Num.Range → SomeNumberLarge T.HALF (λ n. (n ≡ T.integer modulus) ⊎ IsMeasureOf form.now base.now n)) }
{
    let mut list = match Vec::with_capacity(alloc, base.len()) {
        Ok(list) => list,
        Err(_) => return Err(Num::NoMemory),
    };
    for place in 0..base.len() {
        match with_remainder(&base[place], form, modulus) {
            Ok(valued) => list.push_reserved(valued),
            Err(refusal) => return Err(refusal),
        }
    }
    Ok(list)
}

fn with_remainder<T: Scalar>(row: &Row<T>, form: &Row<T>, modulus: T) -> Result<Valued<T>, Num>
    requires modulus { pos 1 ≤ℤ T.integer modulus }
    requires width { length row.now ≡ length form.now }
    ensures { MatchResult result (λ v. (v.vector ≡ row.now) × IsRemainderAt form.now (T.integer modulus) row.now v.value) (λ e. e ≡ Num.Range → (T.HALF <ℤ T.integer modulus) ⊎ (T.HALF <ℤ pos (pair_measure form.now row.now))) }
{
    let value = match form.dot(row) {
        Some(value) => value,
        None => return Err(Num::Range),
    };
    let value = match remainder(value, modulus) {
        Some(value) => value,
        None => return Err(Num::Range),
    };
    match row.try_copy() {
        Ok(row) => Ok(Valued { row, value }),
        Err(refusal) => Err(Num::from(refusal)),
    }
}

fn remainder<T: Scalar>(value: T, modulus: T) -> Option<T>
    requires { pos 1 ≤ℤ T.integer modulus }
    ensures { MatchOption result ((T.HALF <ℤ T.integer modulus) ⊎ (T.HALF <ℤ pos (unsigned_abs (T.integer value)))) (λ r. IsRemainder (T.integer modulus) (T.integer value) (T.integer r)) }
{
    let taken = match floor(value, modulus).try_mul(modulus) {
        Some(taken) => taken,
        None => return None,
    };
    value.try_sub(taken)
}

/// The vectors alone.
pub(crate) fn rows<T: Scalar>(alloc: Global, list: Vec<Valued<T>>) -> Result<Vec<Row<T>>, Num>
    ensures { MatchResult result (λ r. r.items ≡ vectors_of list.items) (λ e. e ≡ Num.NoMemory) }
{
    let mut rows = Vec::new(alloc);
    for valued in list {
        match rows.push(valued.row) {
            Ok(()) => {}
            Err(_) => return Err(Num::NoMemory),
        }
    }
    Ok(rows)
}

/// Whether the value is 0.
pub(crate) fn is_zero<T: Scalar>(valued: &Valued<T>) -> bool
    ensures { IsTrue result ↔ (valued.now.value ≡ pos 0) }
{
    valued.value == T::of_i64(0)
}

/// Whether the value is smaller in absolute value than that of another.
pub(crate) fn is_smaller<T: Scalar>(valued: &Valued<T>, other: &Valued<T>) -> bool
    ensures { IsTrue result ↔ (unsigned_abs valued.now.value < unsigned_abs other.now.value) }
{
    valued.value.to_i128().unsigned_abs() < other.value.to_i128().unsigned_abs()
}
