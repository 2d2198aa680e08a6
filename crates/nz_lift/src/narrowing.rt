// How one form narrows the numbers that a last entry may be.
ghost use Rattle.std.specs.Prelude.{option_map, pos, ◌<ℤ◌, ◌≤ℤ◌, unsigned_abs, MatchBool, MatchOption};
ghost use Rattle.nz_lift.specs.Ends.{IsLeastEnd, IsGreatestEnd, IsGreaterOf, IsLesserOf, IsNarrowed};

use nz_vec::{Scalar, is_negative, is_positive};
use std::marker::Model;

/// The least and the greatest number that a last entry may be, as far as forms bound them.
#[derive(Drop)]
pub(crate) struct Ends<T: Scalar> {
    pub(crate) least: Option<T>,
    pub(crate) greatest: Option<T>,
}

impl<T: Scalar> Model for Ends<T> {
    ghost use Rattle.std.specs.Prelude.{option_map};
    ghost use Rattle.nz_lift.specs.Ends.{Ends};

    ghost Value = { Ends };

    ghost view = { λ e. record { least = option_map T.integer e.least; greatest = option_map T.integer e.greatest } };
}

/// The ends after one form more: at the number t it has this value and t times this last entry, which
/// is to be at least 0. A form without a last entry changes nothing. None only where the value is
/// above `HALF` in size.
pub(crate) fn narrowed<T: Scalar>(ends: Ends<T>, value: T, last: T) -> Option<Ends<T>>
    ensures { MatchOption result (T.HALF <ℤ pos (unsigned_abs (T.integer value))) (λ n. IsNarrowed ends (T.integer value) (T.integer last) n) }
{
    let Ends { least, greatest } = ends;
    if is_positive(last) {
        match least_end(value, last) {
            Some(end) => Some(Ends {
                least: Some(greater(least, end)),
                greatest,
            }),
            None => None,
        }
    } else if is_negative(last) {
        match greatest_end(value, last) {
            Some(end) => Some(Ends {
                least,
                greatest: Some(lesser(greatest, end)),
            }),
            None => None,
        }
    } else {
        Some(Ends { least, greatest })
    }
}

// The least t at which the value and t times the last entry are at least 0 together.
fn least_end<T: Scalar>(value: T, last: T) -> Option<T>
    requires { pos 0 <ℤ T.integer last }
    ensures { MatchOption result (T.HALF <ℤ pos (unsigned_abs (T.integer value))) (λ l. IsLeastEnd (T.integer value) (T.integer last) (T.integer l)) }
{
    match value.floor_div(last) {
        Some(floor) => T::of_i64(0).try_sub(floor),
        None => None,
    }
}

// The greatest such t.
fn greatest_end<T: Scalar>(value: T, last: T) -> Option<T>
    requires { T.integer last <ℤ pos 0 }
    ensures { MatchOption result (T.HALF <ℤ pos (unsigned_abs (T.integer value))) (λ g. IsGreatestEnd (T.integer value) (T.integer last) (T.integer g)) }
{
    match T::of_i64(0).try_sub(value) {
        Some(opposite) => opposite.floor_div(last),
        None => None,
    }
}

// The number, or the known one where that is greater.
fn greater<T: Scalar>(known: Option<T>, number: T) -> T
    ensures { IsGreaterOf (option_map T.integer known) (T.integer number) (T.integer result) }
{
    match known {
        Some(known) => known.max(number),
        None => number,
    }
}

// The number, or the known one where that is less.
fn lesser<T: Scalar>(known: Option<T>, number: T) -> T
    ensures { IsLesserOf (option_map T.integer known) (T.integer number) (T.integer result) }
{
    match known {
        Some(known) => known.min(number),
        None => number,
    }
}

/// Whether the first value stands for less than the second.
pub(crate) fn is_below<T: Scalar>(a: T, b: T) -> bool
    ensures { MatchBool result (T.integer a <ℤ T.integer b) (T.integer b ≤ℤ T.integer a) }
{
    a < b
}
