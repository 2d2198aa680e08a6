// The simplices that a new ray adds.
ghost use Rattle.std.specs.Prelude.{◌≡◌, ◌<◌, ◌++◌, ◌∷◌, [], length, get_or, neg_ℤ, pos, ◌<ℤ◌, MatchResult, ◌≢◌};
ghost use Rattle.std.specs.List.{AllByRecursion as Each};
ghost use Rattle.nz_spec.specs.Vectors.{dot, HasWidth};
ghost use Rattle.nz_spec.specs.Order.{Pairwise};
ghost use Rattle.nz_range.specs.Measures.{AreLargeFor};
ghost use Rattle.nz_cover.specs.Corners.{AreReady, IsExtended, Appends, all_forms};

use crate::corners::{Cell, across, replaced};
use nz_vec::{Num, Row, Rows, Scalar, is_negative};
use std::alloc::Global;

// Appends, for each simplex that lies on the facet, that with the ray at `place`.
fn add_on<T: Scalar>(
    alloc: Global,
    rays: &Rows<T>,
    place: usize,
    facet: &Row<T>,
    factor: T,
    cells: &[Cell<T>],
    mut added: Vec<Cell<T>>,
) -> Result<Vec<Cell<T>>, Num>
    requires within { place < length rays.now }
    requires width { length (get_or rays.now place []) ≡ length facet.now }
    requires factor { T.integer factor ≡ neg_ℤ (dot (get_or rays.now place []) facet.now) }
    requires seen { dot facet.now (get_or rays.now place []) <ℤ pos 0 }
    requires ready { AreReady (length facet.now) rays.now place cells.now }
    ensures { MatchResult result (λ v. Appends (IsExtended rays.now place (facet.now ∷ []) cells.now) added.items v.items) (λ e. e ≡ Num.Range → AreLargeFor T.HALF (get_or rays.now place []) (facet.now ∷ all_forms cells.now)) }
{
    for index in 0..cells.len() {
        let cell = &cells[index];
        match across(cell, facet) {
            Some(corner) => {
                let new = match replaced(alloc, rays, place, facet, factor, cell, corner) {
                    Ok(new) => new,
                    Err(refusal) => return Err(refusal),
                };
                match added.push(new) {
                    Ok(()) => {}
                    Err(_) => return Err(Num::NoMemory),
                }
            }
            None => {}
        }
    }
    Ok(added)
}

// Appends the simplices that the ray at `place` makes with one facet, if it sees it.
fn add_seen<T: Scalar>(
    alloc: Global,
    rays: &Rows<T>,
    place: usize,
    facet: &Row<T>,
    cells: &[Cell<T>],
    added: Vec<Cell<T>>,
) -> Result<Vec<Cell<T>>, Num>
    requires within { place < length rays.now }
    requires width { length (get_or rays.now place []) ≡ length facet.now }
    requires ready { AreReady (length facet.now) rays.now place cells.now }
    ensures { MatchResult result (λ v. Appends (IsExtended rays.now place (facet.now ∷ []) cells.now) added.items v.items) (λ e. e ≡ Num.Range → AreLargeFor T.HALF (get_or rays.now place []) (facet.now ∷ all_forms cells.now)) }
{
    let value = match rays.at(place).dot(facet) {
        Some(value) => value,
        None => return Err(Num::Range),
    };
    if is_negative(value) {
        match T::of_i64(0).try_sub(value) {
            Some(factor) => add_on(alloc, rays, place, facet, factor, cells, added),
            None => Err(Num::Range),
        }
    } else {
        Ok(added)
    }
}

/// The simplices that the ray at `place` makes with the facets that it sees.
pub(crate) fn extension<T: Scalar>(
    alloc: Global,
    rays: &Rows<T>,
    place: usize,
    facets: &Rows<T>,
    cells: &[Cell<T>],
) -> Result<Vec<Cell<T>>, Num>
    requires within { place < length rays.now }
    requires widths { Each (HasWidth (length (get_or rays.now place []))) facets.now }
    requires different { Pairwise ◌≢◌ facets.now }
    requires ready { AreReady (length (get_or rays.now place [])) rays.now place cells.now }
    ensures { MatchResult result (λ v. IsExtended rays.now place facets.now cells.now v.items) (λ e. e ≡ Num.Range → AreLargeFor T.HALF (get_or rays.now place []) (facets.now ++ all_forms cells.now)) }
{
    let mut added = Vec::new(alloc);
    for index in 0..facets.len() {
        added = match add_seen(alloc, rays, place, facets.at(index), cells, added) {
            Ok(added) => added,
            Err(refusal) => return Err(refusal),
        };
    }
    Ok(added)
}
