// Placing one ray after another.
ghost use Rattle.std.specs.Prelude.{◌≡◌, ◌<◌, ◌++◌, ◌∷◌, [], length, get_or, IfOk, IfErr, ◌+◌, MatchResult, Contains};
ghost use Rattle.std.specs.List.{AllByRecursion as Each};
ghost use Rattle.nz_spec.specs.Vectors.{HasWidth};
ghost use Rattle.nz_pointed.specs.Pointed.{IsSimplexOf, IsTooLarge};
ghost use Rattle.nz_cover.specs.Placed.{ArePlaced, ArePlacedUpTo, vertices};
ghost use Rattle.nz_cover.specs.Passing.{PlacesOnce};

use crate::adding::extension;
use crate::corners::{Cell, Corner};
use nz_pointed::Simplex;
use nz_rays::Double;
use nz_vec::{NoMemory, Num, Places, Rows, Scalar};
use std::alloc::Global;

/// What is held after some rays are placed: their places in this order, the simplices, and the
/// cone of these rays with its facets.
#[derive(Drop)]
pub(crate) struct Placing<T: Scalar> {
    pub(crate) placed: Places,
    pub(crate) cells: Vec<Cell<T>>,
    pub(crate) facets: Double<T>,
}

impl<T: Scalar> Placing<T> {
    /// Places one ray more.
    pub(crate) fn absorb(&mut self, alloc: Global, rays: &Rows<T>, place: usize) -> Result<(), Num>
        requires within { place < length rays.now }
        requires placed { ArePlaced (length (get_or rays.now place [])) rays.now self.old.placed self.old.cells.items self.old.facets }
        requires fresh { ¬ Contains self.old.placed place }
        requires widths { Each (HasWidth (length (get_or rays.now place []))) rays.now }
        requires inside { Each (λ p. p < length rays.now) self.old.placed }
        ensures { MatchResult result (λ _. (self.new.placed ≡ self.old.placed ++ place ∷ []) × ArePlaced (length (get_or rays.now place [])) rays.now self.new.placed self.new.cells.items self.new.facets) (λ e. e ≡ Num.Range → IsTooLarge T.HALF (length (get_or rays.now place [])) rays.now) }
    {
        let facets = self.facets.rays();
        let mut more = match extension(alloc, rays, place, facets, self.cells.as_slice()) {
            Ok(more) => more,
            Err(refusal) => return Err(refusal),
        };
        match self.facets.add(alloc, rays.at(place)) {
            Ok(()) => {}
            Err(refusal) => return Err(refusal),
        }
        match self.cells.append(&mut more) {
            Ok(()) => {}
            Err(_) => return Err(Num::NoMemory),
        }
        match self.placed.push(place) {
            Ok(()) => Ok(()),
            Err(refusal) => Err(Num::from(refusal)),
        }
    }

    /// Places the ray at this place unless it was placed before, and says whether it is new.
    pub(crate) fn pass(&mut self, alloc: Global, rays: &Rows<T>, place: usize) -> Result<bool, Num>
        requires within { place < length rays.now }
        requires widths { Each (HasWidth (length (get_or rays.now place []))) rays.now }
        requires placed { ArePlacedUpTo (length (get_or rays.now place [])) rays.now place self.old.placed self.old.cells.items self.old.facets }
        ensures { MatchResult result (λ is_new. PlacesOnce self.old.placed place self.new.placed is_new × ArePlacedUpTo (length (get_or rays.now place [])) rays.now (place + 1) self.new.placed self.new.cells.items self.new.facets) (λ e. e ≡ Num.Range → IsTooLarge T.HALF (length (get_or rays.now place [])) rays.now) }
    {
        if self.placed.contains(place) {
            return Ok(false);
        }
        match self.absorb(alloc, rays, place) {
            Ok(()) => Ok(true),
            Err(refusal) => Err(refusal),
        }
    }
}

// The simplex of the first independent rays.
fn first_cell<T: Scalar>(alloc: Global, simplex: &Simplex<T>) -> Result<Cell<T>, NoMemory>
    requires { length simplex.now.rays ≡ length simplex.now.places }
    ensures { IfOk result (λ c. c ≡ vertices simplex.now.places simplex.now.rays) }
{
    let mut corners = Vec::new(alloc);
    for index in 0..simplex.places.len() {
        let form = match simplex.rays.at(index).try_copy() {
            Ok(form) => form,
            Err(refusal) => return Err(refusal),
        };
        let place = simplex.places.at(index);
        match corners.push(Corner { place, form }) {
            Ok(()) => {}
            Err(_) => return Err(NoMemory),
        }
    }
    Ok(Cell { corners })
}

/// The first independent rays placed.
pub(crate) fn begun<T: Scalar>(
    alloc: Global,
    rays: &Rows<T>,
    simplex: Simplex<T>,
) -> Result<Placing<T>, Num>
    requires { IsSimplexOf (length simplex.places) rays.now simplex.places simplex.rays }
    ensures ok { IfOk result (λ p. (p.placed ≡ simplex.places) × ArePlaced (length simplex.places) rays.now p.placed p.cells.items p.facets) }
    ensures err { IfErr result (λ e. e ≡ Num.NoMemory) }
{
    let facets = match Double::new(alloc, rays, &simplex) {
        Ok(facets) => facets,
        Err(refusal) => return Err(refusal),
    };
    let cell = match first_cell(alloc, &simplex) {
        Ok(cell) => cell,
        Err(refusal) => return Err(Num::from(refusal)),
    };
    let mut cells = Vec::new(alloc);
    match cells.push(cell) {
        Ok(()) => {}
        Err(_) => return Err(Num::NoMemory),
    }
    Ok(Placing {
        placed: simplex.places,
        cells,
        facets,
    })
}
