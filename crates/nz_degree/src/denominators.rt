ghost use Rattle.std.specs.Prelude.{◌≡◌, ℤ, ◌∷◌, [], length, IsTrue, ◌↔◌, MatchResult};
ghost use Rattle.std.specs.List.{AllByRecursion as Each};
ghost use Rattle.nz_spec.specs.Vectors.{HasWidth};
ghost use Rattle.nz_further.specs.Denominators.{IsDenominator};
ghost use Rattle.nz_vec.specs.Primitives.{HasDivisorsOf};
ghost use Rattle.nz_degree.specs.Degrees.{LacksDenominator};

use nz_vec::{Num, Row, Rows, Scalar, is_zero};

/// The greatest common divisor of the degrees of the rows, and 1 where that is 0 or there is no
/// row. Takes no memory.
pub fn denominator<T: Scalar>(grading: &Row<T>, list: &Rows<T>) -> Result<T, Num>
    requires { Each (HasWidth (length grading.now)) list.now }
    ensures { MatchResult result (λ g. IsDenominator grading.now list.now (T.integer g)) (λ e. (e ≡ Num.Range) × LacksDenominator T.fits grading.now list.now) }
{
    let mut held = T::of_i64(0);
    for place in 0..list.len() {
        let row = list.at(place);
        let degree = match grading.dot(row) {
            Some(degree) => degree,
            None => return Err(Num::Range),
        };
        held = joint_divisor(held, degree);
    }
    if is_zero(held) {
        return Ok(T::of_i64(1));
    }
    match held.gcd(T::of_i64(0)) {
        Some(divisor) => Ok(divisor),
        None => Err(Num::Range),
    }
}

// The gcd of two degrees, up to its sign. The sign is left open because the least value of a type
// has no opposite there, though its gcd with further degrees is mostly small.
fn joint_divisor<T: Scalar>(held: T, degree: T) -> T
    ensures { HasDivisorsOf (T.integer held ∷ T.integer degree ∷ []) (T.integer result) }
{
    if is_zero(degree) {
        held
    } else if is_zero(held) {
        degree
    } else if same(held, degree) {
        held
    } else {
        held.gcd(degree).unwrap()
    }
}

// Whether two values stand for one integer.
fn same<T: Scalar>(a: T, b: T) -> bool
    ensures { IsTrue result ↔ (T.integer a ≡ T.integer b) }
{
    a == b
}
