ghost use Rattle.std.specs.Prelude.{◌≡◌, ◌<◌, ◌∷◌, ℤ, pos, ◌≤ℤ◌, length, MatchBool, MatchResult};
ghost use Rattle.std.specs.List.{AllByRecursion as Each};
ghost use Rattle.nz_spec.specs.Vectors.{Vector, HasWidth};
ghost use Rattle.nz_spec.specs.Order.{IsLexBefore};
ghost use Rattle.nz_degree.specs.Degrees.{LacksDegree};
ghost use Rattle.nz_degree.specs.Positivities.{Tells, ComesFirst, IsFoundIn};

use crate::positivity::Positivity;
use nz_vec::{Num, Row, Rows, Scalar, cmp_order};

/// Whether each row has a positive degree by the grading. Takes no memory.
pub fn check<T: Scalar>(grading: &Row<T>, list: &Rows<T>) -> Result<Positivity, Num>
    requires { Each (HasWidth (length grading.now)) list.now }
    ensures { MatchResult result (Tells grading.now list.now) (λ e. (e ≡ Num.Range) × LacksDegree T.fits grading.now list.now) }
{
    let mut found = Positivity::Positive;
    let mut least = T::of_i64(0);
    for place in 0..list.len() {
        let row = list.at(place);
        let degree = match grading.dot(row) {
            Some(degree) => degree,
            None => return Err(Num::Range),
        };
        if comes_first(list, found, least, row, degree) {
            found = Positivity::NotPositive(place);
            least = degree;
        }
    }
    Ok(found)
}

// Whether the row is to be named in place of what was found: it has degree 0 or less, and stands before.
fn comes_first<T: Scalar>(
    list: &Rows<T>,
    found: Positivity,
    least: T,
    row: &Row<T>,
    degree: T,
) -> bool
    requires { IsFoundIn (length row.now) list.now found }
    ensures { MatchBool result (ComesFirst list.now found (T.integer least) (T.integer degree) row.now) (¬ ComesFirst list.now found (T.integer least) (T.integer degree) row.now) }
{
    match found {
        Positivity::Positive => is_not_positive(degree),
        Positivity::NotPositive(place) => stands_before(degree, row, least, list.at(place)),
    }
}

fn is_not_positive<T: Scalar>(degree: T) -> bool
    ensures { MatchBool result (T.integer degree ≤ℤ pos 0) (¬ (T.integer degree ≤ℤ pos 0)) }
{
    degree <= T::of_i64(0)
}

// Whether u, of degree du, stands before v, of degree dv.
fn stands_before<T: Scalar>(du: T, u: &Row<T>, dv: T, v: &Row<T>) -> bool
    requires { length u.now ≡ length v.now }
    ensures { MatchBool result (IsLexBefore (T.integer du ∷ u.now) (T.integer dv ∷ v.now)) (¬ IsLexBefore (T.integer du ∷ u.now) (T.integer dv ∷ v.now)) }
{
    cmp_order(du, u, dv, v).is_lt()
}
