// The pivot of clearing: the first value of the least absolute value other than 0.
ghost use Rattle.std.specs.Prelude.{◌≡◌, ◌+◌, ◌<◌, ℕ, pos, length, MatchBool, MatchOption};
ghost use Rattle.nz_spec.specs.Vectors.{entry};
ghost use Rattle.nz_sweep.specs.Clearing.{values_of, AreZero, IsPivot};

use crate::valued::{Valued, is_smaller, is_zero};
use nz_vec::Scalar;

/// The place of the pivot. None where all values are 0.
pub(crate) fn least<T: Scalar>(list: &[Valued<T>]) -> Option<usize>
    ensures { MatchOption result (AreZero list.now) (λ place. IsPivot (values_of list.now) (length list.now) place) }
{
    let mut least = None;
    for place in 0..list.len() {
        least = lesser(list, place, least);
    }
    least
}

// The place of the pivot of the values up to this place.
fn lesser<T: Scalar>(list: &[Valued<T>], place: usize, least: Option<usize>) -> Option<usize>
    requires inside { place < length list.now }
    requires so_far { MatchOption least ((k : ℕ) → k < place → entry (values_of list.now) k ≡ pos 0) (λ p. IsPivot (values_of list.now) place p) }
    ensures { MatchOption result ((k : ℕ) → k < place + 1 → entry (values_of list.now) k ≡ pos 0) (λ p. IsPivot (values_of list.now) (place + 1) p) }
{
    let candidate = &list[place];
    if is_zero(candidate) {
        return least;
    }
    let kept = match least {
        Some(kept) => kept,
        None => return Some(place),
    };
    if is_smaller(candidate, &list[kept]) {
        return Some(place);
    }
    Some(kept)
}

/// Whether all values are 0.
pub(crate) fn are_zero<T: Scalar>(list: &[Valued<T>]) -> bool
    ensures { MatchBool result (AreZero list.now) (¬ AreZero list.now) }
{
    for place in 0..list.len() {
        if !is_zero(&list[place]) {
            return false;
        }
    }
    true
}
