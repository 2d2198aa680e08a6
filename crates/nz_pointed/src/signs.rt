// The two directions of a vector.
ghost use Rattle.std.specs.Prelude.{◌≡◌, ◌≢◌, ◌⊎◌, pos, ◌<ℤ◌, ◌∷◌, [], MatchBool, MatchResult, length};
ghost use Rattle.nz_spec.specs.Vectors.{dot, opposite, IsNonzero, LeadsPositive};
ghost use Rattle.nz_range.specs.Measures.{measure, AreLargeFor};
ghost use Rattle.nz_pointed.specs.Elimination.{IsTurned};

use nz_vec::{Num, Row, Scalar, is_nonzero, is_positive};
use std::alloc::Global;

/// The opposite vector. Range comes only where the vector has a measure above `HALF`.
pub fn opposite<T: Scalar>(alloc: Global, row: &Row<T>) -> Result<Row<T>, Num>
    ensures { MatchResult result (λ r. r ≡ opposite row.now) (λ e. e ≡ Num.Range → T.HALF <ℤ pos (measure row.now)) }
{
    Row::combine(alloc, T::of_i64(-1), row, T::of_i64(0), row)
}

/// The row or its opposite, whichever has a positive value at the form.
pub(crate) fn turned<T: Scalar>(alloc: Global, form: &Row<T>, row: Row<T>) -> Result<Row<T>, Num>
    requires width { length form.now ≡ length row }
    requires nonzero { dot form.now row ≢ pos 0 }
    ensures { MatchResult result (IsTurned form.now row) (λ e. e ≡ Num.Range → AreLargeFor T.HALF form.now (row ∷ [])) }
{
    let value = match form.dot(&row) {
        Some(value) => value,
        None => return Err(Num::Range),
    };
    if is_positive(value) {
        Ok(row)
    } else {
        opposite(alloc, &row)
    }
}

/// Whether the first nonzero entry is positive.
pub fn leads_positive<T: Scalar>(row: &Row<T>) -> bool
    requires { IsNonzero row.now }
    ensures { MatchBool result (LeadsPositive row.now) (LeadsPositive (opposite row.now)) }
{
    for place in 0..row.len() {
        let entry = row.at(place);
        if is_nonzero(entry) {
            return is_positive(entry);
        }
    }
    false
}

/// The row or its opposite, whichever has a positive first nonzero entry.
pub(crate) fn led<T: Scalar>(alloc: Global, row: &Row<T>) -> Result<Row<T>, Num>
    requires { IsNonzero row.now }
    ensures { MatchResult result (λ r. LeadsPositive r × ((r ≡ row.now) ⊎ (r ≡ opposite row.now))) (λ e. e ≡ Num.Range → T.HALF <ℤ pos (measure row.now)) }
{
    if leads_positive(row) {
        match row.try_copy() {
            Ok(copy) => Ok(copy),
            Err(refusal) => Err(Num::from(refusal)),
        }
    } else {
        opposite(alloc, row)
    }
}
