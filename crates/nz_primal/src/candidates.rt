// The candidates that a cover gives: its rays, and the points of its simplices.
ghost use Rattle.std.specs.Prelude.{◌≡◌, ◌<◌, ◌++◌, length, get_or, unsigned_abs, IfOk, IfErr, MatchResult};
ghost use Rattle.std.specs.List.{AllByRecursion as Each};
ghost use Rattle.nz_spec.specs.Covers.{vectors_at};
ghost use Rattle.nz_classes.specs.Classes.{IsPoint};
ghost use Rattle.nz_classes.specs.Walks.{IsFullSimplex, IsTooLarge};
ghost use Rattle.nz_primal.specs.Parts.{AreFullSimplices, AreCandidates, ArePointsOf, IsWalkRefusal, IsOneWalkRefusal, WhereRange, SomeWalkLarge};

use nz_classes::walk;
use nz_cover::Cover;
use nz_vec::{Places, Rows, Scalar, Work};
use std::alloc::Global;

/// The rays, and for each simplex of the cover the whole vectors of its half-open parallelepiped.
pub(crate) fn candidates<T: Scalar>(
    alloc: Global,
    rays: &Rows<T>,
    cover: &Cover<T>,
    limit: u32,
) -> Result<Rows<T>, Work>
    requires { AreFullSimplices rays.now cover.now.simplices cover.now.forms }
    ensures points { MatchResult result (AreCandidates rays.now cover.now.simplices) (IsWalkRefusal limit rays.now cover.now.simplices) }
    ensures cause { IfErr result (WhereRange (SomeWalkLarge (unsigned_abs T.HALF) rays.now cover.now.simplices cover.now.forms)) }
{
    let mut list = match rays.try_copy() {
        Ok(list) => list,
        Err(refusal) => return Err(Work::from(refusal)),
    };
    for place in 0..cover.simplices.len() {
        let (places, forms) = (cover.simplices.at(place), cover.forms.at(place));
        let points = match walked(alloc, rays, places, forms, limit) {
            Ok(points) => points,
            Err(refusal) => return Err(refusal),
        };
        list = match Rows::joined(list, &points) {
            Ok(list) => list,
            Err(refusal) => return Err(Work::from(refusal)),
        };
    }
    Ok(list)
}

// The points of the simplex at these places.
fn walked<T: Scalar>(
    alloc: Global,
    rays: &Rows<T>,
    places: &Places,
    forms: &Rows<T>,
    limit: u32,
) -> Result<Rows<T>, Work>
    requires within { Each (λ p. p < length rays.now) places.now }
    requires full { IsFullSimplex (vectors_at rays.now places.now) forms.now }
    ensures points { MatchResult result (ArePointsOf rays.now places.now) (IsOneWalkRefusal limit rays.now places.now) }
    ensures cause { IfErr result (WhereRange (IsTooLarge (unsigned_abs T.HALF) (vectors_at rays.now places.now) forms.now)) }
{
    let sides = match rays.at_places(places) {
        Ok(sides) => sides,
        Err(refusal) => return Err(Work::from(refusal)),
    };
    match walk(alloc, &sides, forms, limit) {
        Ok(points) => Ok(points),
        Err(refusal) => Err(refusal),
    }
}
