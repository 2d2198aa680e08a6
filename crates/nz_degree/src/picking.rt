ghost use Rattle.std.specs.Prelude.{◌≡◌, ℤ, pos, ◌≤ℤ◌, length, MatchBool, MatchResult};
ghost use Rattle.std.specs.List.{AllByRecursion as Each};
ghost use Rattle.nz_spec.specs.Vectors.{Vector, HasWidth};
ghost use Rattle.nz_spec.specs.Order.{degree};
ghost use Rattle.nz_order.specs.Picks.{Picks};
ghost use Rattle.nz_degree.specs.Degrees.{LacksDegree};

use nz_vec::{Num, Row, Rows, Scalar};
use std::alloc::Global;

/// The rows whose degree is the denominator of the grading, in the order of the list: their
/// divided degree is 1.
pub fn degree_one<T: Scalar>(
    alloc: Global,
    grading: &Row<T>,
    denominator: T,
    list: &Rows<T>,
) -> Result<Rows<T>, Num>
    requires widths { Each (HasWidth (length grading.now)) list.now }
    requires positive { pos 1 ≤ℤ T.integer denominator }
    ensures { MatchResult result (Picks (λ x. degree grading.now x ≡ T.integer denominator) list.now) (λ e. e ≡ Num.Range → LacksDegree T.fits grading.now list.now) }
{
    let mut picked = Rows::new(alloc);
    for place in 0..list.len() {
        let row = list.at(place);
        let degree = match grading.dot(row) {
            Some(degree) => degree,
            None => return Err(Num::Range),
        };
        if is_of_degree(degree, denominator) {
            picked.push(row.try_copy()?)?;
        }
    }
    Ok(picked)
}

fn is_of_degree<T: Scalar>(degree: T, denominator: T) -> bool
    ensures { MatchBool result (T.integer degree ≡ T.integer denominator) (¬ (T.integer degree ≡ T.integer denominator)) }
{
    degree == denominator
}
