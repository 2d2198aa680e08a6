// The rays after a new row: those on its side, and the sums of adjacent pairs on both sides.
ghost use Rattle.std.specs.Prelude.{◌≡◌, pos, ℕ, ◌+◌, ◌-◌, ◌<◌, ◌≤ℤ◌, [], length, get_or, IfOk, MatchResult};
ghost use Rattle.std.specs.List.{AllByRecursion as Each, AllZip};
ghost use Rattle.nz_spec.specs.Vectors.{HasWidth};
ghost use Rattle.nz_spec.specs.Order.{Pairwise, IsListOf};
ghost use Rattle.nz_spec.specs.Covers.{vectors_at};
ghost use Rattle.nz_linear.specs.Coordinates.{in_coordinates};
ghost use Rattle.nz_rays.specs.Crossings.{AreOnBothSides, FewAreCovered};
ghost use Rattle.nz_rays.specs.Cuts.{IsKeptAt, IsSum, AreKeptZeros, AreSumZeros, Appends, AreCutZeros, IsCutByValues};
ghost use Rattle.nz_rays.specs.Measures.{HasLargeRay, IsCrossingWithin};

use crate::crossings::{Crossing, crossings};
use crate::sharing::shared_columns;
use crate::zero_sets::{copied, extended};
use nz_vec::{NoMemory, Num, PlaceLists, Places, Row, Rows, Scalar, is_negative, is_zero};
use std::alloc::Global;

/// Rays, and for each the places of the rows that are 0 at it.
#[derive(Drop)]
pub(crate) struct RaysWithZeros<T: Scalar> {
    pub(crate) rays: Rows<T>,
    pub(crate) zeros: PlaceLists,
}

/// The values of the form at the rays.
fn values_at<T: Scalar>(alloc: Global, form: &Row<T>, rays: &Rows<T>) -> Result<Row<T>, Num>
    requires { Each (HasWidth (length form.now)) rays.now }
    ensures { MatchResult result (λ v. v ≡ in_coordinates rays.now form.now) (λ e. e ≡ Num.Range → HasLargeRay T.HALF form.now rays.now) }
{
    let mut values = match Vec::with_capacity(alloc, rays.len()) {
        Ok(values) => values,
        Err(_) => return Err(Num::NoMemory),
    };
    for place in 0..rays.len() {
        match form.dot(rays.at(place)) {
            Some(value) => values.push_reserved(value),
            None => return Err(Num::Range),
        }
    }
    Ok(Row::from_vec(values))
}

/// The places of the values that are not negative.
fn kept_places<T: Scalar>(alloc: Global, values: &Row<T>) -> Result<Places, NoMemory>
    ensures { IfOk result (IsListOf ◌<◌ (IsKeptAt values.now)) }
{
    let mut kept = Places::new(alloc);
    for place in 0..values.len() {
        if !is_negative(values.at(place)) {
            match kept.push(place) {
                Ok(()) => {}
                Err(refusal) => return Err(refusal),
            }
        }
    }
    Ok(kept)
}

// The sum of the rays of a crossing at which the new row is 0, divided at once, since it can be
// much larger than what it is a multiple of.
fn sum_of<T: Scalar>(
    alloc: Global,
    values: &Row<T>,
    rays: &Rows<T>,
    crossing: &Crossing,
) -> Result<Row<T>, Num>
    requires sides { AreOnBothSides values.now crossing.now.above crossing.now.below }
    requires count { length values.now ≡ length rays.now }
    requires widths { length (get_or rays.now crossing.now.below []) ≡ length (get_or rays.now crossing.now.above []) }
    ensures { MatchResult result (IsSum values.now rays.now crossing.now) (λ e. e ≡ Num.Range → ¬ IsCrossingWithin T.HALF values.now rays.now crossing.now) }
{
    let factor = match T::of_i64(0).try_sub(values.at(crossing.below)) {
        Some(factor) => factor,
        None => return Err(Num::Range),
    };
    let over = values.at(crossing.above);
    match Row::combine(
        alloc,
        over,
        rays.at(crossing.below),
        factor,
        rays.at(crossing.above),
    ) {
        Ok(sum) => sum.primitive(),
        Err(refusal) => Err(refusal),
    }
}

/// Appends the sum of each crossing.
fn with_sums<T: Scalar>(
    alloc: Global,
    mut into: Rows<T>,
    values: &Row<T>,
    rays: &Rows<T>,
    crossings: &[Crossing],
) -> Result<Rows<T>, Num>
    requires sides { Each (λ c. AreOnBothSides values.now c.above c.below) crossings.now }
    requires count { length values.now ≡ length rays.now }
    requires widths { (i j : ℕ) → i < length rays.now → j < length rays.now → length (get_or rays.now i []) ≡ length (get_or rays.now j []) }
    ensures { MatchResult result (Appends (IsSum values.now rays.now) crossings.now into) (λ e. e ≡ Num.Range → ¬ Each (IsCrossingWithin T.HALF values.now rays.now) crossings.now) }
{
    for index in 0..crossings.len() {
        let sum = match sum_of(alloc, values, rays, &crossings[index]) {
            Ok(sum) => sum,
            Err(refusal) => return Err(refusal),
        };
        match into.push(sum) {
            Ok(()) => {}
            Err(refusal) => return Err(Num::from(refusal)),
        }
    }
    Ok(into)
}

// The places at a ray kept: the new one too, where the value is 0.
fn kept_zeros_of<T: Scalar>(
    alloc: Global,
    values: &Row<T>,
    zeros: &PlaceLists,
    last: usize,
    place: usize,
) -> Result<Places, NoMemory>
    requires count { length zeros.now ≡ length values.now }
    requires within { place < length values.now }
    ensures { IfOk result (AreKeptZeros values.now zeros.now last place) }
{
    if is_zero(values.at(place)) {
        extended(alloc, zeros.at(place), last)
    } else {
        copied(alloc, zeros.at(place))
    }
}

/// The places at each ray kept.
fn kept_zeros<T: Scalar>(
    alloc: Global,
    values: &Row<T>,
    zeros: &PlaceLists,
    last: usize,
    kept: &Places,
) -> Result<PlaceLists, NoMemory>
    requires count { length zeros.now ≡ length values.now }
    requires within { Each (λ k. k < length values.now) kept.now }
    ensures { IfOk result (AllZip (AreKeptZeros values.now zeros.now last) kept.now) }
{
    let mut lists = PlaceLists::new(alloc);
    for index in 0..kept.len() {
        let places = match kept_zeros_of(alloc, values, zeros, last, kept.at(index)) {
            Ok(places) => places,
            Err(refusal) => return Err(refusal),
        };
        match lists.push(places) {
            Ok(()) => {}
            Err(refusal) => return Err(refusal),
        }
    }
    Ok(lists)
}

/// Appends the places at the sum of each crossing.
fn with_sum_zeros(
    alloc: Global,
    mut into: PlaceLists,
    crossings: &[Crossing],
    last: usize,
) -> Result<PlaceLists, NoMemory>
    ensures { IfOk result (Appends (AreSumZeros last) crossings.now into) }
{
    for index in 0..crossings.len() {
        let crossing = &crossings[index];
        let places = match extended(alloc, &crossing.zeros, last) {
            Ok(places) => places,
            Err(refusal) => return Err(refusal),
        };
        match into.push(places) {
            Ok(()) => {}
            Err(refusal) => return Err(refusal),
        }
    }
    Ok(into)
}

/// What the rays and their places are after one more row, which stands at the place `last`.
pub(crate) fn cut<T: Scalar>(
    alloc: Global,
    form: &Row<T>,
    last: usize,
    rays: &Rows<T>,
    zeros: &PlaceLists,
) -> Result<RaysWithZeros<T>, Num>
    requires widths { Each (HasWidth (length form.now)) rays.now }
    requires count { length zeros.now ≡ length rays.now }
    requires sets { Each (Pairwise ◌<◌) zeros.now }
    requires places { Each (Each (λ k. k < last)) zeros.now }
    requires few { FewAreCovered (in_coordinates rays.now form.now) zeros.now (length form.now - 2) }
    ensures { MatchResult result (λ c. IsCutByValues (in_coordinates rays.now form.now) last rays.now zeros.now c.rays c.zeros) (λ e. e ≡ Num.Range → HasLargeRay T.HALF form.now rays.now) }
{
    let values = match values_at(alloc, form, rays) {
        Ok(values) => values,
        Err(refusal) => return Err(refusal),
    };
    let kept = match kept_places(alloc, &values) {
        Ok(kept) => kept,
        Err(refusal) => return Err(Num::from(refusal)),
    };
    let needed = form.len().saturating_sub(2);
    let columns = match shared_columns(alloc, &values, zeros, last) {
        Ok(columns) => columns,
        Err(refusal) => return Err(Num::from(refusal)),
    };
    let crossings = match crossings(alloc, &values, zeros, columns.as_slice(), needed) {
        Ok(crossings) => crossings,
        Err(refusal) => return Err(Num::from(refusal)),
    };
    let zeros = match cut_zeros(alloc, &values, zeros, last, &kept, crossings.as_slice()) {
        Ok(zeros) => zeros,
        Err(refusal) => return Err(Num::from(refusal)),
    };
    match cut_rays(alloc, &values, rays, &kept, crossings.as_slice()) {
        Ok(rays) => Ok(RaysWithZeros { rays, zeros }),
        Err(refusal) => Err(refusal),
    }
}

// The rays kept, and the sums.
fn cut_rays<T: Scalar>(
    alloc: Global,
    values: &Row<T>,
    rays: &Rows<T>,
    kept: &Places,
    crossings: &[Crossing],
) -> Result<Rows<T>, Num>
    requires within { Each (λ k. k < length rays.now) kept.now }
    requires sides { Each (λ c. AreOnBothSides values.now c.above c.below) crossings.now }
    requires count { length values.now ≡ length rays.now }
    requires widths { (i j : ℕ) → i < length rays.now → j < length rays.now → length (get_or rays.now i []) ≡ length (get_or rays.now j []) }
    ensures { MatchResult result (Appends (IsSum values.now rays.now) crossings.now (vectors_at rays.now kept.now)) (λ e. e ≡ Num.Range → ¬ Each (IsCrossingWithin T.HALF values.now rays.now) crossings.now) }
{
    let into = match rays.at_places(kept) {
        Ok(into) => into,
        Err(refusal) => return Err(Num::from(refusal)),
    };
    with_sums(alloc, into, values, rays, crossings)
}

// The places at the rays kept, and at the sums.
fn cut_zeros<T: Scalar>(
    alloc: Global,
    values: &Row<T>,
    zeros: &PlaceLists,
    last: usize,
    kept: &Places,
    crossings: &[Crossing],
) -> Result<PlaceLists, NoMemory>
    requires count { length zeros.now ≡ length values.now }
    requires within { Each (λ k. k < length values.now) kept.now }
    ensures { IfOk result (AreCutZeros values.now zeros.now last kept.now crossings.now) }
{
    let into = match kept_zeros(alloc, values, zeros, last, kept) {
        Ok(into) => into,
        Err(refusal) => return Err(refusal),
    };
    with_sum_zeros(alloc, into, crossings, last)
}
