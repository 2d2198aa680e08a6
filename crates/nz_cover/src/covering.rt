// The whole run of placing, and what it tells the watch.
ghost use Rattle.std.specs.Prelude.{◌≢◌, [], length, IsTrue, MatchResult};
ghost use Rattle.nz_spec.specs.Stages.{ArePlacings};
ghost use Rattle.nz_rays.specs.Descriptions.{IsDescription};
ghost use Rattle.nz_watch.specs.Telling.{HasPassedAll};
ghost use Rattle.nz_cover.specs.Placed.{ArePlacedUpTo};
ghost use Rattle.nz_cover.specs.Passing.{LeavesAs, PassesStage, PassesIf};
ghost use Rattle.nz_cover.specs.Placing.{ArePlaceable, IsPlaced, IsPlaceRefusal};

use crate::listing::{Cover, sorted_cover};
use crate::placing::{Placing, begun};
use nz_rays::first_rows;
use nz_vec::{Num, PlaceLists, RowLists, Rows, Scalar, Work};
use nz_watch::Watch;
use std::alloc::Global;

// The refusal of a call that only reckons, after so many stages were passed.
fn left(refusal: Num, told_before: u64, passed: u64) -> Work
    ensures { LeavesAs told_before passed refusal result }
{
    match refusal {
        Num::Range => Work::Range {
            told: told_before.max(passed),
        },
        Num::NoMemory => Work::NoMemory,
    }
}

// Tells the stage at hand unless it was told before, and counts it.
fn pass_stage<T: Scalar>(
    placing: &Placing<T>,
    told_before: u64,
    passed: u64,
    watch: &mut Box<dyn Watch>,
) -> Result<u64, Work>
    ensures passes { PassesStage told_before passed (length placing.now.placed, length placing.now.facets.rays) (seen watch.old) (seen watch.new) result }
    ensures description { IsDescription placing.now.facets }
{
    let number = placing.placed.len() as u64;
    let count = placing.facets.rays().len() as u64;
    let next = match passed.checked_add(1) {
        Some(next) => next,
        None => return Err(Work::NoMemory),
    };
    if passed < told_before {
        return Ok(next);
    }
    if watch.stage(number, count) {
        Ok(next)
    } else {
        Err(Work::Stopped { stage: number })
    }
}

// The same where a ray was placed, and else nothing.
fn pass_if_new<T: Scalar>(
    is_new: bool,
    placing: &Placing<T>,
    told_before: u64,
    passed: u64,
    watch: &mut Box<dyn Watch>,
) -> Result<u64, Work>
    ensures passes { PassesIf is_new told_before passed (length placing.now.placed, length placing.now.facets.rays) (seen watch.old) (seen watch.new) result }
    ensures description { IsTrue is_new → IsDescription placing.now.facets }
{
    if is_new {
        pass_stage(placing, told_before, passed, watch)
    } else {
        Ok(passed)
    }
}

// All rays placed: first the independent ones, then the others in their order.
fn all_placed<T: Scalar>(
    alloc: Global,
    rays: &Rows<T>,
    width: usize,
    told_before: u64,
    watch: &mut Box<dyn Watch>,
) -> Result<Placing<T>, Work>
    requires placeable { ArePlaceable width rays.now }
    requires some { rays.now ≢ [] }
    ensures { MatchResult result (λ p. ArePlacedUpTo width rays.now (length rays.now) p.placed p.cells.items p.facets × HasPassedAll (ArePlacings width rays.now) told_before (seen watch.old) (seen watch.new)) (λ e. IsPlaceRefusal T.HALF width rays.now told_before (seen watch.old) (seen watch.new) e) }
{
    let simplex = match first_rows(alloc, rays, width) {
        Ok(simplex) => simplex,
        Err(refusal) => return Err(left(refusal, told_before, 0)),
    };
    let mut placing = match begun(alloc, rays, simplex) {
        Ok(placing) => placing,
        Err(refusal) => return Err(left(refusal, told_before, 0)),
    };
    let mut passed = match pass_stage(&placing, told_before, 0, watch) {
        Ok(passed) => passed,
        Err(refusal) => return Err(refusal),
    };
    for place in 0..rays.len() {
        let is_new = match placing.pass(alloc, rays, place) {
            Ok(is_new) => is_new,
            Err(refusal) => return Err(left(refusal, told_before, passed)),
        };
        passed = match pass_if_new(is_new, &placing, told_before, passed, watch) {
            Ok(passed) => passed,
            Err(refusal) => return Err(refusal),
        };
    }
    Ok(placing)
}

/// A good cover of the cone of the rays, by placing them one after another: first the independent ones, then the others in
/// their order. A new ray makes a simplex with each simplex of the cone so far that lies on a facet which it sees (Lee,
/// "Subdivisions and triangulations of polytopes", 1997).
///
/// The rays have `width` entries each, and that rank. A stage is the number of rays placed and that of the facets of their cone;
/// the first `told_before` stages are not told. The number of Range is the greater of `told_before` and the number of stages
/// passed in this call.
pub fn place<T: Scalar>(
    alloc: Global,
    rays: &Rows<T>,
    width: usize,
    told_before: u64,
    watch: &mut Box<dyn Watch>,
) -> Result<Cover<T>, Work>
    requires { ArePlaceable width rays.now }
    ensures { MatchResult result (λ c. IsPlaced width rays.now c.simplices c.forms × HasPassedAll (ArePlacings width rays.now) told_before (seen watch.old) (seen watch.new)) (λ e. IsPlaceRefusal T.HALF width rays.now told_before (seen watch.old) (seen watch.new) e) }
{
    if rays.len() == 0 {
        return Ok(Cover {
            simplices: PlaceLists::new(alloc),
            forms: RowLists::new(alloc),
        });
    }
    let placing = match all_placed(alloc, rays, width, told_before, watch) {
        Ok(placing) => placing,
        Err(refusal) => return Err(refusal),
    };
    match sorted_cover(alloc, placing.cells.as_slice()) {
        Ok(cover) => Ok(cover),
        Err(refusal) => Err(Work::from(refusal)),
    }
}
