//! How often an element can be taken, by division of the values of the rows.
ghost use Rattle.std.specs.Prelude.{◌≡◌, ℤ, pos, ◌≤ℤ◌, ◌<ℤ◌, length, map, option_map, MatchBool};
ghost use Rattle.std.specs.List.{AllByRecursion as Each};
ghost use Rattle.nz_member.specs.Amounts.{TellsMost, IsCount, Lessens, IsLeast};

use nz_vec::{Scalar, is_positive};

// How often the heights are taken from the values: as often as they can be. Where no height is
// positive there is no bound; the basis of a positive monoid has no such element.
pub(crate) fn times<T: Scalar>(heights: &[T], values: &[T]) -> T
    requires same { length heights.now ≡ length values.now }
    requires heights { Each (λ h. pos 0 ≤ℤ h) (map T.integer heights.now) }
    requires values { Each (λ v. pos 0 ≤ℤ v) (map T.integer values.now) }
    ensures { IsCount (map T.integer heights.now) (map T.integer values.now) (T.integer result) }
{
    match most_times(heights, values) {
        Some(times) => times,
        None => T::of_i64(0),
    }
}

// How often the heights can be taken from the values. None where no height is positive.
fn most_times<T: Scalar>(heights: &[T], values: &[T]) -> Option<T>
    requires same { length heights.now ≡ length values.now }
    requires heights { Each (λ h. pos 0 ≤ℤ h) (map T.integer heights.now) }
    requires values { Each (λ v. pos 0 ≤ℤ v) (map T.integer values.now) }
    ensures { TellsMost T.integer (map T.integer heights.now) (map T.integer values.now) result }
{
    let mut most = None;
    for place in 0..heights.len() {
        most = lesser(most, heights[place], values[place]);
    }
    most
}

// The times, lessened by the floor of the quotient where the height is positive.
fn lesser<T: Scalar>(times: Option<T>, height: T, value: T) -> Option<T>
    ensures { Lessens T.integer times (T.integer height) (T.integer value) result }
{
    if is_positive(height) {
        Some(least_of(times, value.floor_div(height).unwrap()))
    } else {
        times
    }
}

// The quotient, or the times where these are fewer.
fn least_of<T: Scalar>(times: Option<T>, quotient: T) -> T
    ensures { IsLeast (option_map T.integer times) (T.integer quotient) (T.integer result) }
{
    match times {
        Some(times) => times.min(quotient),
        None => quotient,
    }
}
