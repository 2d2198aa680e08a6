// Division for every width at once.
ghost use Rattle.std.specs.Prelude.{◌≢◌, pos, ◌∷◌, [], ◌<ℤ◌, IsSome, IsTrue, ◌↔◌};
ghost use Rattle.nz_scalar.specs.Exact.{GivesSuch};
ghost use Rattle.nz_scalar.specs.Division.{IsFloorQuotient, HasGcd, RoundsUp};

use num_traits::{PrimInt, Unsigned};

/// The greatest integer not above the quotient.
pub(crate) fn floor_quotient<N: PrimInt>(a: N, by: N) -> Option<N>
    requires nonzero { N.value by ≢ pos 0 }
    requires number { N.fits (N.value a) }
    requires divisor { N.fits (N.value by) }
    ensures value { GivesSuch N.value N.fits result (IsFloorQuotient (N.value a) (N.value by)) }
    ensures some { pos 0 <ℤ N.value by → IsSome result }
{
    let quotient = match a.checked_div(&by) {
        Some(quotient) => quotient,
        None => return None,
    };
    if rounds_up(a % by, by) {
        quotient.checked_sub(&N::one())
    } else {
        Some(quotient)
    }
}

/// Whether the quotient toward zero is above the exact one: the remainder and the divisor have
/// different signs.
fn rounds_up<N: PrimInt>(rest: N, by: N) -> bool
    ensures { IsTrue result ↔ RoundsUp (N.value rest) (N.value by) }
{
    if N::zero() < by {
        rest < N::zero()
    } else {
        by < N::zero() && N::zero() < rest
    }
}

/// The greatest common divisor, by Euclid's steps.
pub(crate) fn common_divisor<N: PrimInt + Unsigned>(a: N, b: N) -> N
    requires first { N.fits (N.value a) }
    requires second { N.fits (N.value b) }
    ensures { HasGcd (N.value a ∷ N.value b ∷ []) (N.value result) }
{
    let mut x = a;
    let mut y = b;
    'steps: while !y.is_zero() {
        let rest = x % y;
        x = y;
        y = rest;
    }
    x
}
