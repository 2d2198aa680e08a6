// Quotients by positive numbers, which are values wherever the number is.
ghost use Rattle.std.specs.Prelude.{◌<ℤ◌, pos};
ghost use Rattle.nz_scalar.specs.Division.{IsFloorQuotient};

use nz_vec::Scalar;

/// The greatest integer not above the quotient.
pub(crate) fn floor<T: Scalar>(number: T, by: T) -> T
    requires { pos 0 <ℤ T.integer by }
    ensures { IsFloorQuotient (T.integer number) (T.integer by) (T.integer result) }
{
    match number.floor_div(by) {
        Some(quotient) => quotient,
        None => unreachable!(),
    }
}
