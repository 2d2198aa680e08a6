// The pairs of adjacent rays on both sides of a new row. Two rays are adjacent where no third one
// is 0 at all the rows at which both are; this is read off the words of their zero sets.
ghost use Rattle.std.specs.Prelude.{◌≡◌, pos, ℕ, ℤ, List, ◌+◌, ◌<◌, ◌<ℤ◌, [], length, get_or, IfOk, MatchOption};
ghost use Rattle.std.specs.List.{AllByRecursion as Each};
ghost use Rattle.nz_spec.specs.Order.{Pairwise, IsListOf};
ghost use Rattle.nz_rays.specs.Crossings.{AreCommon, AreOnBothSides, HasNoThird, IsCovered, FewAreCovered, AreCrossingsBefore};
ghost use Rattle.nz_rays.specs.Words.{IsPlaceIn, AreBusy, AreNear, TellsThird, TellsThirdOf};
ghost use Rattle.nz_rays.specs.Shared.{AreSharedColumns};

use crate::sharing::negative_places;
use crate::words::{Column, are_far, busy_places, covers, have_few, near_places};
use crate::zero_sets::common;
use nz_vec::{NoMemory, PlaceLists, Places, Row, Scalar, is_negative, is_positive};
use std::alloc::Global;

/// An adjacent pair by the places of its rays, with the places of the rows that are 0 at both.
#[derive(Drop)]
pub(crate) struct Crossing {
    pub(crate) above: usize,
    pub(crate) below: usize,
    pub(crate) zeros: Places,
}

// Whether the set at this place, of neither ray of the pair, has all their common places.
fn is_third(columns: &[Column], above: usize, below: usize, place: usize) -> bool
    requires above { IsPlaceIn above columns.now }
    requires below { IsPlaceIn below columns.now }
    requires place { IsPlaceIn place columns.now }
    ensures { TellsThird columns.now above below place result }
{
    if place == above {
        false
    } else if place == below {
        false
    } else {
        covers(columns, above, below, place)
    }
}

// Whether no ray at these places has all the places that two have in common.
fn are_adjacent(near: &Places, columns: &[Column], above: usize, below: usize) -> bool
    requires above { IsPlaceIn above columns.now }
    requires below { IsPlaceIn below columns.now }
    requires near { Each (λ k. IsPlaceIn k columns.now) near.now }
    ensures { TellsThirdOf near.now columns.now above below result }
{
    for index in 0..near.len() {
        if is_third(columns, above, below, near.at(index)) {
            return false;
        }
    }
    true
}

// The crossing of two rays on both sides, if they are adjacent. Adjacent rays have as many common
// places as needed, and so has a third ray with the ray above: it is near.
fn crossing_of(
    alloc: Global,
    zeros: &PlaceLists,
    columns: &[Column],
    near: &Places,
    needed: usize,
    above: usize,
    below: usize,
) -> Result<Option<Crossing>, NoMemory>
    requires above { above < length zeros.now }
    requires below { below < length zeros.now }
    requires sets { Each (Pairwise ◌<◌) zeros.now }
    requires columns { (values : List ℤ) × (AreOnBothSides values above below × AreSharedColumns values zeros.now columns.now) }
    requires near { AreNear columns.now (length zeros.now) above needed near.now }
    requires few { (common : List ℕ) → AreCommon zeros.now above below common → length common < needed → IsCovered zeros.now above below }
    ensures { IfOk result (λ o. MatchOption o (IsCovered zeros.now above below) (λ c. (c.above ≡ above) × (c.below ≡ below) × AreCommon zeros.now above below c.zeros × HasNoThird zeros.now c.zeros above below)) }
{
    if have_few(columns, above, below, needed) {
        return Ok(None);
    }
    if !are_adjacent(near, columns, above, below) {
        return Ok(None);
    }
    let zeros = match common(alloc, zeros.at(above), zeros.at(below)) {
        Ok(zeros) => zeros,
        Err(refusal) => return Err(refusal),
    };
    if zeros.len() < needed {
        return Ok(None);
    }
    Ok(Some(Crossing {
        above,
        below,
        zeros,
    }))
}

// Appends the crossings of the ray above at this place.
fn with_crossings_of<T: Scalar>(
    alloc: Global,
    values: &Row<T>,
    zeros: &PlaceLists,
    columns: &[Column],
    busy: &Places,
    needed: usize,
    above: usize,
    mut list: Vec<Crossing>,
) -> Result<Vec<Crossing>, NoMemory>
    requires within { above < length values.now }
    requires positive { pos 0 <ℤ get_or values.now above (pos 0) }
    requires count { length zeros.now ≡ length values.now }
    requires sets { Each (Pairwise ◌<◌) zeros.now }
    requires columns { AreSharedColumns values.now zeros.now columns.now }
    requires busy { AreBusy columns.now (length zeros.now) needed busy.now }
    requires few { FewAreCovered values.now zeros.now needed }
    requires before { AreCrossingsBefore values.now zeros.now above 0 list.items }
    ensures { IfOk result (λ v. AreCrossingsBefore values.now zeros.now (above + 1) 0 v.items) }
{
    let near = match near_places(alloc, columns, busy, above, needed) {
        Ok(near) => near,
        Err(refusal) => return Err(refusal),
    };
    for below in 0..values.len() {
        if is_negative(values.at(below)) {
            let found = match crossing_of(alloc, zeros, columns, &near, needed, above, below) {
                Ok(found) => found,
                Err(refusal) => return Err(refusal),
            };
            match found {
                Some(crossing) => match list.push(crossing) {
                    Ok(()) => {}
                    Err(_) => return Err(NoMemory),
                },
                None => {}
            }
        }
    }
    Ok(list)
}

/// All pairs of adjacent rays at which the new row has values of both signs.
pub(crate) fn crossings<T: Scalar>(
    alloc: Global,
    values: &Row<T>,
    zeros: &PlaceLists,
    columns: &[Column],
    needed: usize,
) -> Result<Vec<Crossing>, NoMemory>
    requires count { length zeros.now ≡ length values.now }
    requires sets { Each (Pairwise ◌<◌) zeros.now }
    requires columns { AreSharedColumns values.now zeros.now columns.now }
    requires few { FewAreCovered values.now zeros.now needed }
    ensures { IfOk result (λ v. AreCrossingsBefore values.now zeros.now (length values.now) 0 v.items) }
{
    let below = match negative_places(alloc, values) {
        Ok(places) => places,
        Err(refusal) => return Err(refusal),
    };
    let busy = match busy_places(alloc, columns, zeros.len(), needed) {
        Ok(places) => places,
        Err(refusal) => return Err(refusal),
    };
    let mut list = Vec::new(alloc);
    for above in 0..values.len() {
        if is_positive(values.at(above)) {
            if !are_far(columns, above, &below, needed) {
                list = match with_crossings_of(
                    alloc, values, zeros, columns, &busy, needed, above, list,
                ) {
                    Ok(list) => list,
                    Err(refusal) => return Err(refusal),
                };
            }
        }
    }
    Ok(list)
}
