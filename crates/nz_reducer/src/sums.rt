// Sums that stay inside the type wherever their terms and the whole sum do.
ghost use Rattle.std.specs.Prelude.{◌≡◌, ◌⊎◌, ℕ, ◌<◌, ◌≤◌, ℤ, pos, ◌+ℤ◌, ◌≤ℤ◌, ◌<ℤ◌, length, MatchBool, MatchOption};
ghost use Rattle.nz_scalar.specs.Exact.{Gives};
ghost use Rattle.nz_reducer.specs.Marks.{IsSum, rise, fall};

use nz_vec::{Row, Scalar, is_negative};

/// The sum of the values. None exactly where it, or one of the values, is no value of the type. While
/// the sum is negative a value of at least 0 is added, if one is left, and the other way round: so no
/// sum on the way is larger than the whole or the largest value.
pub(crate) fn sum_of<T: Scalar>(values: &Row<T>) -> Option<T>
    ensures { IsSum T.integer T.fits values.now result }
{
    let mut sum = T::of_i64(0);
    let mut raised = 0;
    let mut lowered = 0;
    'terms: while is_left(raised, lowered, values.len()) {
        if is_rise_next(sum, raised, lowered, values.len()) {
            sum = match raise(sum, values.at(raised)) {
                Some(sum) => sum,
                None => return None,
            };
            raised += 1;
        } else {
            sum = match lower(sum, values.at(lowered)) {
                Some(sum) => sum,
                None => return None,
            };
            lowered += 1;
        }
    }
    Some(sum)
}

/// Whether one of these places is before the end.
fn is_left(raised: usize, lowered: usize, count: usize) -> bool
    ensures { MatchBool result ((raised < count) ⊎ (lowered < count)) ((count ≤ raised) × (count ≤ lowered)) }
{
    if raised < count {
        true
    } else {
        lowered < count
    }
}

/// Whether the next value is to be of at least 0.
fn is_rise_next<T: Scalar>(sum: T, raised: usize, lowered: usize, count: usize) -> bool
    requires { (raised < count) ⊎ (lowered < count) }
    ensures { MatchBool result ((raised < count) × ((T.integer sum <ℤ pos 0) ⊎ (count ≤ lowered))) ((lowered < count) × ((pos 0 ≤ℤ T.integer sum) ⊎ (count ≤ raised))) }
{
    if raised >= count {
        false
    } else if lowered >= count {
        true
    } else {
        is_negative(sum)
    }
}

/// The sum and the value, where the value is at least 0. None only where one of them is no value of the type.
fn raise<T: Scalar>(sum: T, value: T) -> Option<T>
    ensures { MatchOption result (T.fits (T.integer value) → ¬ T.fits (T.integer sum +ℤ rise (T.integer value))) (λ s. T.fits (T.integer value) × T.fits (T.integer s) × (T.integer s ≡ T.integer sum +ℤ rise (T.integer value))) }
{
    let zero = T::of_i64(0);
    match value.try_sub(zero) {
        Some(value) => {
            if is_negative(value) {
                sum.try_add(zero)
            } else {
                sum.try_add(value)
            }
        }
        None => None,
    }
}

/// The sum and the value, where the value is negative.
fn lower<T: Scalar>(sum: T, value: T) -> Option<T>
    ensures { Gives T.integer T.fits result (T.integer sum +ℤ fall (T.integer value)) }
{
    if is_negative(value) {
        sum.try_add(value)
    } else {
        sum.try_add(T::of_i64(0))
    }
}
