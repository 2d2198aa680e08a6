// What degrees are divided by, and the elements of degree 1.
ghost use Rattle.std.specs.Prelude.{◌≡◌, pos, ◌≤ℤ◌, length, IfOk, IfErr, IfSome, option_map};
ghost use Rattle.std.specs.List.{AllByRecursion as Each};
ghost use Rattle.nz_spec.specs.Vectors.{HasWidth};
ghost use Rattle.nz_spec.specs.Order.{degree};
ghost use Rattle.nz_order.specs.Picks.{Picks};
ghost use Rattle.nz_degree.specs.Degrees.{LacksDegree};
ghost use Rattle.nz_solve.specs.Replies.{IsWhere};
ghost use Rattle.nz_solve.specs.Parts.{AreDivided, LacksSomeDenominator};

use nz_degree::{degree_one, denominator};
use nz_vec::{Num, Row, Rows, Scalar};
use std::alloc::Global;

/// The denominator, where a grading is given, and the elements of degree 1, where they are wanted.
#[derive(Drop)]
pub(crate) struct Divided<T: Scalar> {
    pub(crate) denominator: Option<T>,
    pub(crate) degree_one: Option<Rows<T>>,
}

/// What the degrees of the Hilbert basis are divided by, and its elements of degree 1.
pub(crate) fn divided_of<T: Scalar>(
    alloc: Global,
    wanted: bool,
    grading: &Option<Row<T>>,
    hilbert: &Rows<T>,
) -> Result<Divided<T>, Num>
    requires { IfSome grading.now (λ g. Each (HasWidth (length g)) hilbert.now) }
    ensures divided { IfOk result (λ d. AreDivided wanted grading.now hilbert.now (option_map T.integer d.denominator) d.degree_one) }
    ensures cause { IfErr result (λ e. e ≡ Num.Range → LacksSomeDenominator T.fits grading.now hilbert.now) }
{
    let grading = match grading {
        Some(grading) => grading,
        None => {
            return Ok(Divided {
                denominator: None,
                degree_one: None,
            });
        }
    };
    let divisor = match denominator(grading, hilbert) {
        Ok(divisor) => divisor,
        Err(refusal) => return Err(refusal),
    };
    match ones_of(alloc, wanted, grading, divisor, hilbert) {
        Ok(ones) => Ok(Divided {
            denominator: Some(divisor),
            degree_one: ones,
        }),
        Err(refusal) => Err(refusal),
    }
}

// The elements of which this is the degree, where they are wanted.
fn ones_of<T: Scalar>(
    alloc: Global,
    wanted: bool,
    grading: &Row<T>,
    divisor: T,
    hilbert: &Rows<T>,
) -> Result<Option<Rows<T>>, Num>
    requires widths { Each (HasWidth (length grading.now)) hilbert.now }
    requires positive { pos 1 ≤ℤ T.integer divisor }
    ensures ones { IfOk result (IsWhere wanted (Picks (λ x. degree grading.now x ≡ T.integer divisor) hilbert.now)) }
    ensures cause { IfErr result (λ e. e ≡ Num.Range → LacksDegree T.fits grading.now hilbert.now) }
{
    if !wanted {
        return Ok(None);
    }
    match degree_one(alloc, grading, divisor, hilbert) {
        Ok(ones) => Ok(Some(ones)),
        Err(refusal) => Err(refusal),
    }
}
