// Clearing: what is left of vectors when a multiple of one of them is taken from each.
ghost use Rattle.std.specs.Prelude.{◌≡◌, ◌∷◌, [], length, MatchResult};
ghost use Rattle.std.specs.List.{AllByRecursion as Each, AllZip};
ghost use Rattle.nz_spec.specs.Vectors.{dot, HasWidth};
ghost use Rattle.nz_range.specs.Measures.{AreLargeFor};
ghost use Rattle.nz_pointed.specs.Elimination.{IsCleared, IsFirstNonzero};

use nz_vec::{Num, Row, Scalar, is_nonzero};
use std::alloc::Global;

/// The place of the first row at which the form is not 0.
pub(crate) fn first_nonzero<T: Scalar>(form: &Row<T>, rows: &[Row<T>]) -> Result<Option<usize>, Num>
    requires { Each (HasWidth (length form.now)) rows.now }
    ensures { MatchResult result (IsFirstNonzero form.now rows.now) (λ _. AreLargeFor T.HALF form.now rows.now) }
{
    for place in 0..rows.len() {
        match form.dot(&rows[place]) {
            Some(value) => {
                if is_nonzero(value) {
                    return Ok(Some(place));
                }
            }
            None => return Err(Num::Range),
        }
    }
    Ok(None)
}

/// Each row cleared by `by`, at which the form has this value.
pub(crate) fn cleared_all<T: Scalar>(
    alloc: Global,
    form: &Row<T>,
    by: &Row<T>,
    value: T,
    rows: &[Row<T>],
) -> Result<Vec<Row<T>>, Num>
    requires width { length by.now ≡ length form.now }
    requires widths { Each (HasWidth (length form.now)) rows.now }
    requires value { T.integer value ≡ dot form.now by.now }
    ensures { MatchResult result (λ v. AllZip (IsCleared form.now by.now) rows.now v.items) (λ e. e ≡ Num.Range → AreLargeFor T.HALF form.now (by.now ∷ rows.now)) }
{
    let mut all = match Vec::with_capacity(alloc, rows.len()) {
        Ok(all) => all,
        Err(_) => return Err(Num::NoMemory),
    };
    for place in 0..rows.len() {
        match cleared(alloc, form, by, value, &rows[place]) {
            Ok(row) => all.push_reserved(row),
            Err(refusal) => return Err(refusal),
        }
    }
    Ok(all)
}

// One row cleared. The sum is divided at once, since it can be much larger than what it is a multiple of.
fn cleared<T: Scalar>(
    alloc: Global,
    form: &Row<T>,
    by: &Row<T>,
    value: T,
    row: &Row<T>,
) -> Result<Row<T>, Num>
    requires width { length by.now ≡ length form.now }
    requires row_width { length row.now ≡ length form.now }
    requires value { T.integer value ≡ dot form.now by.now }
    ensures { MatchResult result (IsCleared form.now by.now row.now) (λ e. e ≡ Num.Range → AreLargeFor T.HALF form.now (by.now ∷ row.now ∷ [])) }
{
    let at_row = match form.dot(row) {
        Some(at_row) => at_row,
        None => return Err(Num::Range),
    };
    let factor = match T::of_i64(0).try_sub(at_row) {
        Some(factor) => factor,
        None => return Err(Num::Range),
    };
    match Row::combine(alloc, value, row, factor, by) {
        Ok(sum) => sum.primitive(),
        Err(refusal) => Err(refusal),
    }
}
