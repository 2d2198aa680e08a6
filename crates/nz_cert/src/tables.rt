//! The values of forms at vectors.
ghost use Rattle.std.specs.Prelude.{◌≡◌, ℕ, ◌++◌, map, length, IfOk, FitsSigned, MatchResult};
ghost use Rattle.std.specs.Bool.{MatchBool};
ghost use Rattle.std.specs.Int.{w128};
ghost use Rattle.std.specs.List.{AllByRecursion as Each};
ghost use Rattle.nz_spec.specs.Vectors.{HasWidth, IsNonzero, values_at};
ghost use Rattle.nz_order.specs.Boxes.{NonNegative};
ghost use Rattle.nz_further.specs.Certificates.{IsReducedOver};
ghost use Rattle.nz_vec.specs.Sums.{HasValueOutside};

use crate::reduction::is_reduced;
use nz_vec::{NoMemory, Num, Row, Rows, Scalar, is_negative};
use std::alloc::Global;

/// The values of the forms at each vector. Range comes only where a form has, at one of the vectors, a
/// product or a sum of the first products that is no value of the type.
pub fn values_table<T: Scalar>(
    alloc: Global,
    forms: &Rows<T>,
    vectors: &Rows<T>,
) -> Result<Rows<T>, Num>
    requires { Each (λ v. Each (HasWidth (length v)) forms.now) vectors.now }
    ensures { MatchResult result (λ t. t ≡ map (values_at forms.now) vectors.now) (λ e. e ≡ Num.Range → HasValueOutside T.fits forms.now vectors.now) }
{
    let mut table = Rows::new(alloc);
    for place in 0..vectors.len() {
        let values = match forms.values_at(vectors.at(place)) {
            Ok(values) => values,
            Err(refusal) => return Err(refusal),
        };
        match table.push(values) {
            Ok(()) => {}
            Err(_) => return Err(Num::NoMemory),
        }
    }
    Ok(table)
}

fn is_not_negative<T: Scalar>(values: &Row<T>) -> bool
    ensures { MatchBool result (NonNegative values.now) (¬ NonNegative values.now) }
{
    for column in 0..values.len() {
        if is_negative(values.at(column)) {
            return false;
        }
    }
    true
}

/// Whether no value of the table is below 0.
pub fn are_not_negative<T: Scalar>(table: &Rows<T>) -> bool
    ensures { MatchBool result (Each NonNegative table.now) (¬ Each NonNegative table.now) }
{
    for place in 0..table.len() {
        if !is_not_negative(table.at(place)) {
            return false;
        }
    }
    true
}

/// Whether each of the values is reduced over the table.
pub fn are_reduced(alloc: Global, table: &Rows<i128>, all: &Rows<i128>) -> Result<bool, NoMemory>
    requires wide { Each (λ v. Each (HasWidth (length v)) table.now) all.now }
    requires entries { Each NonNegative table.now }
    requires nonzero { Each IsNonzero table.now }
    requires values { Each NonNegative all.now }
    ensures { IfOk result (λ yes. MatchBool yes (Each (IsReducedOver NonNegative table.now) all.now) (¬ Each (IsReducedOver NonNegative table.now) all.now)) }
{
    for place in 0..all.len() {
        match is_reduced(alloc, table, all.at(place)) {
            Ok(true) => {}
            Ok(false) => return Ok(false),
            Err(refusal) => return Err(refusal),
        }
    }
    Ok(true)
}
