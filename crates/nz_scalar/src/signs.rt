// The signs of values.
ghost use Rattle.std.specs.Prelude.{◌≡◌, ◌≢◌, ◌↔◌, IsTrue, pos, ◌<ℤ◌};

use crate::Scalar;

/// Whether a value stands for more than 0.
pub fn is_positive<T: Scalar>(value: T) -> bool
    ensures { IsTrue result ↔ (pos 0 <ℤ T.integer value) }
{
    T::of_i64(0) < value
}

/// Whether a value stands for less than 0.
pub fn is_negative<T: Scalar>(value: T) -> bool
    ensures { IsTrue result ↔ (T.integer value <ℤ pos 0) }
{
    value < T::of_i64(0)
}

/// Whether a value stands for 0.
pub fn is_zero<T: Scalar>(value: T) -> bool
    ensures { IsTrue result ↔ (T.integer value ≡ pos 0) }
{
    value == T::of_i64(0)
}

/// Whether a value stands for another number than 0.
pub fn is_nonzero<T: Scalar>(value: T) -> bool
    ensures { IsTrue result ↔ (T.integer value ≢ pos 0) }
{
    value != T::of_i64(0)
}
