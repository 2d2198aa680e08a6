// From the list of a shadow to that of the next one.
ghost use Rattle.std.specs.Prelude.{◌≡◌, ◌≤◌, suc, length, ◌∷◌, ◌++◌, [], IfOk, OnOk, MatchResult};
ghost use Rattle.nz_lift.specs.Ends.{BoundLastEntry};
ghost use Rattle.nz_lift.specs.LastEntries.{IsBetween, MayFollow, IsFollowed, IsIntervalRefusal, IsFollowRefusal};
ghost use Rattle.nz_lift.specs.ShadowForms.{AreForLift, LiftsTo, IsShadowRefusal};

use crate::intervals::{Interval, interval_at};
use crate::narrowing::is_below;
use crate::vectors::{extended, opened};
use nz_vec::{NoMemory, Row, Rows, Scalar, Work};
use std::alloc::Global;

/// The next shadow, from the list of a shadow and the forms of the next one: for each vector of the
/// list, in order, it has those with a number after it at which all forms are at least 0.
///
/// TooMany only where the next shadow has more vectors than the limit. Range only where a form has a
/// measure above `HALF` at a vector of the list with 1 in front and 0 after it.
pub(crate) fn lifted<T: Scalar>(
    alloc: Global,
    forms: &Rows<T>,
    points: &Rows<T>,
    limit: u32,
) -> Result<Rows<T>, Work>
    requires { AreForLift forms.now points.now }
    ensures list { MatchResult result (LiftsTo forms.now points.now) (IsShadowRefusal T.HALF limit forms.now points.now) }
    ensures within { IfOk result (λ xs. length xs ≤ limit) }
{
    let mut list = Rows::new(alloc);
    for place in 0..points.len() {
        list = match lifted_at(alloc, forms, points.at(place), list, limit) {
            Ok(list) => list,
            Err(refusal) => return Err(refusal),
        };
    }
    Ok(list)
}

// The list, and then the vector with each number that may stand after it.
fn lifted_at<T: Scalar>(
    alloc: Global,
    forms: &Rows<T>,
    point: &Row<T>,
    list: Rows<T>,
    limit: u32,
) -> Result<Rows<T>, Work>
    requires bounding { BoundLastEntry (suc (suc (length point.now))) forms.now }
    requires within { length list ≤ limit }
    ensures { MatchResult result (IsFollowed limit (MayFollow forms.now point.now) point.now list) (IsFollowRefusal T.HALF limit forms.now point.now list) }
{
    let opened = match opened(alloc, point) {
        Ok(opened) => opened,
        Err(refusal) => return Err(Work::from(refusal)),
    };
    match interval_at(forms, &opened) {
        Some(interval) => with_numbers(alloc, point, interval, list, limit),
        None => Err(Work::Range { told: 0 }),
    }
}

// The list, and then the vector with each number of the interval after it.
fn with_numbers<T: Scalar>(
    alloc: Global,
    point: &Row<T>,
    interval: Interval<T>,
    mut list: Rows<T>,
    limit: u32,
) -> Result<Rows<T>, Work>
    requires { length list ≤ limit }
    ensures { MatchResult result (IsFollowed limit (IsBetween (T.integer interval.low) (T.integer interval.high)) point.now list) (IsIntervalRefusal T.HALF limit (T.integer interval.low) (T.integer interval.high) list) }
{
    let Interval { low, high } = interval;
    let mut next = low;
    for _place in list.len()..limit as usize {
        if is_below(high, next) {
            return Ok(list);
        }
        match push_with(alloc, point, next, &mut list) {
            Ok(()) => {}
            Err(refusal) => return Err(Work::from(refusal)),
        }
        next = match next.try_add(T::of_i64(1)) {
            Some(next) => next,
            None => return Err(Work::Range { told: 0 }),
        };
    }
    if is_below(high, next) {
        Ok(list)
    } else {
        Err(Work::TooMany)
    }
}

// Appends the vector with the number after it.
fn push_with<T: Scalar>(
    alloc: Global,
    point: &Row<T>,
    number: T,
    list: &mut Rows<T>,
) -> Result<(), NoMemory>
    ensures { OnOk result (list.new ≡ list.old ++ (point.now ++ T.integer number ∷ []) ∷ []) }
{
    let row = match extended(alloc, point, number) {
        Ok(row) => row,
        Err(refusal) => return Err(refusal),
    };
    list.push(row)
}
