// Both sides of a new row, until no sum of one element of each is left to be looked at.
ghost use Rattle.std.specs.Prelude.{◌≡◌, length, Contains, MatchResult};
ghost use Rattle.std.specs.List.{AllByRecursion as Each};
ghost use Rattle.nz_spec.specs.Vectors.{HasWidth};
ghost use Rattle.nz_dual.specs.DualStages.{IsInsertRefusal};
ghost use Rattle.nz_dual.specs.Sides.{IsSide, Keeps, Handles, HasGrown};
ghost use Rattle.nz_dual.specs.PairSums.{IsNext};
ghost use Rattle.nz_dual.specs.Closures.{IsPart, IsComplete, IsOfferedRefusal, AreOffered};

use crate::levels::level_of;
use crate::sides::{Side, work_of};
use crate::sums::{next_degree, sums_of};
use nz_vec::{Row, Rows, Scalar, Work};
use std::alloc::Global;

/// Offers each of the vectors to both sides.
pub(crate) fn offer_all<T: Scalar>(
    alloc: Global,
    rows: &Rows<T>,
    vectors: &Rows<T>,
    up: &mut Side<T>,
    down: &mut Side<T>,
    limit: u32,
) -> Result<(), Work>
    requires rows_wide { Each (HasWidth (length up.old.last)) rows.now }
    requires width { length down.old.last ≡ length up.old.last }
    requires widths { Each (HasWidth (length up.old.last)) vectors.now }
    requires up { IsSide limit rows.now up.old }
    requires down { IsSide limit rows.now down.old }
    requires keeps_up { Each (Keeps rows.now up.old.last up.old.elements) vectors.now }
    requires keeps_down { Each (Keeps rows.now down.old.last down.old.elements) vectors.now }
    ensures { MatchResult result (λ _. HasGrown limit rows.now up.old up.new × HasGrown limit rows.now down.old down.new × Each (Handles rows.now up.old.last up.new.elements) vectors.now × Each (Handles rows.now down.old.last down.new.elements) vectors.now) (IsOfferedRefusal T.HALF limit rows.now up.old.last down.old.last (Contains vectors.now)) }
{
    for place in 0..vectors.len() {
        match offer_both(alloc, rows, vectors.at(place), up, down, limit) {
            Ok(()) => {}
            Err(refusal) => return Err(refusal),
        }
    }
    Ok(())
}

/// Offers a vector to both sides. One at which the new row is 0 has the same values on both, which
/// they then share.
fn offer_both<T: Scalar>(
    alloc: Global,
    rows: &Rows<T>,
    x: &Row<T>,
    up: &mut Side<T>,
    down: &mut Side<T>,
    limit: u32,
) -> Result<(), Work>
    requires rows_wide { Each (HasWidth (length x.now)) rows.now }
    requires above { length up.old.last ≡ length x.now }
    requires below { length down.old.last ≡ length x.now }
    requires up { IsSide limit rows.now up.old }
    requires down { IsSide limit rows.now down.old }
    requires keeps_up { Keeps rows.now up.old.last up.old.elements x.now }
    requires keeps_down { Keeps rows.now down.old.last down.old.elements x.now }
    ensures { MatchResult result (λ _. AreOffered limit rows.now x.now up.old up.new down.old down.new) (IsOfferedRefusal T.HALF limit rows.now up.old.last down.old.last (λ v. v ≡ x.now)) }
{
    match level_of(alloc, rows, &up.last, &down.last, x) {
        Some(level) => {
            match up.offer_level(rows, x, &level.values, &level.slice, limit) {
                Ok(()) => down.offer_level(rows, x, &level.values, &level.slice, limit),
                Err(refusal) => Err(refusal),
            }
        }
        None => match up.offer(alloc, rows, x, limit) {
            Ok(()) => down.offer(alloc, rows, x, limit),
            Err(refusal) => Err(refusal),
        },
    }
}

/// Offers the sums of two elements, one of each side and both rising there, degree by degree. What
/// is added by one degree makes sums of greater degree only, so after each degree both sides have
/// all their irreducibles up to it, and nothing reducible is ever kept (Bruns and Ichim,
/// "Normaliz: algorithms for affine monoids and rational cones").
pub(crate) fn close<T: Scalar>(
    alloc: Global,
    rows: &Rows<T>,
    up: &mut Side<T>,
    down: &mut Side<T>,
    limit: u32,
) -> Result<(), Work>
    requires { IsPart limit rows.now up.old down.old }
    ensures { MatchResult result (λ _. IsComplete limit rows.now up.new × IsComplete limit rows.now down.new × (up.new.last ≡ up.old.last) × (down.new.last ≡ down.old.last)) (IsInsertRefusal T.HALF limit (length up.old.last) rows.now up.old.last) }
{
    let mut last: u128 = 0;
    'degrees: loop {
        let degree = match next_of(up, down, last) {
            Some(degree) => degree,
            None => return Ok(()),
        };
        let sums = match sums_of(alloc, rows, up, down, degree) {
            Ok(sums) => sums,
            Err(refusal) => return Err(work_of(refusal)),
        };
        match offer_all(alloc, rows, &sums, up, down, limit) {
            Ok(()) => {}
            Err(refusal) => return Err(refusal),
        }
        last = degree;
    }
}

/// The least degree above the last of a sum of two elements, one of each side and both rising there.
/// Only the different degrees are looked at.
fn next_of<T: Scalar>(up: &Side<T>, down: &Side<T>, last: u128) -> Option<u128>
    ensures { IsNext last up.now.degrees down.now.degrees result }
{
    next_degree(up.classes(), down.classes(), last)
}
