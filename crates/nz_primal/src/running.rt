// The primal run.
ghost use Rattle.std.specs.Prelude.{◌≡◌, ◌≤◌, length, MatchResult, IfOk, IfErr};
ghost use Rattle.std.specs.List.{AllByRecursion as Each};
ghost use Rattle.nz_spec.specs.Vectors.{HasWidth};
ghost use Rattle.nz_spec.specs.Stages.{ArePlacings};
ghost use Rattle.nz_watch.specs.Telling.{HasPassedAll};
ghost use Rattle.nz_pointed.specs.Pointed.{IsSimplexOf};
ghost use Rattle.nz_primal.specs.Lists.{AreSeparating, ArePrimalLists, HasStageCount, IsPrimalRefusal};
ghost use Rattle.nz_measures.specs.Sweeps.{Sweeps, whole_base};
ghost use Rattle.nz_measures.specs.Reaches.{HasPrimalAbove};
ghost use Rattle.nz_primal.specs.Parts.{WhereRange, IsSettled, MoveOn, IsSettleCause, stage_count, IsFirstRefusal, IsLastRefusal};

use crate::elements::elements;
use crate::generators::generators;
use crate::second::{Second, in_second};
use nz_cover::{Cover, place};
use nz_pointed::Simplex;
use nz_vec::{Num, Rows, Scalar, Work};
use nz_watch::Watch;
use std::alloc::Global;

/// What the primal run finds.
#[derive(Drop)]
pub struct PrimalLists<T: Scalar> {
    /// The irreducible elements, lexicographically.
    pub list: Rows<T>,
    /// The extreme generators, in the order that was asked for.
    pub extreme: Rows<T>,
    /// Simplices of places of extreme generators. Their forms stand in second coordinates: those in a
    /// base of the vectors at which the rows are 0 that are 0 at all extreme generators.
    pub cover: Cover<T>,
    /// How many stages the placing of the extreme generators has.
    pub stages: u64,
}

/// The irreducible elements of the whole vectors at which all rows are at least 0, where only 0 has
/// all rows 0: their extreme generators, a cover by simplices of these, and of the points of the
/// simplices those that no other reduces (Bruns and Ichim, "Normaliz: algorithms for affine monoids
/// and rational cones").
///
/// `simplex` has the first independent rows. The extreme generators stand by the values of the forms of
/// `order`, the first form first. A stage is the number of extreme generators placed and that of the
/// facets of their cone; the first `told_before` stages are not told. TooMany comes where a simplex has
/// more than `limit` points, or there are more irreducible elements. The number of Range is the
/// greater of `told_before` and the number of stages passed in this call. Range comes only where a
/// number that the run is known to form is above `HALF`: an entry of a sweep, a row or a form of `order`
/// at an extreme generator, or one of the cover and its simplices in second coordinates. Only Stopped
/// comes after a stop of the watch.
pub fn primal<T: Scalar>(
    alloc: Global,
    rows: &Rows<T>,
    simplex: &Simplex<T>,
    order: &Rows<T>,
    limit: u32,
    told_before: u64,
    watch: &mut Box<dyn Watch>,
) -> Result<PrimalLists<T>, Work>
    requires widths { Each (HasWidth (length simplex.now.places)) rows.now }
    requires simplex { IsSimplexOf (length simplex.now.places) rows.now simplex.now.places simplex.now.rays }
    requires order { AreSeparating (length simplex.now.places) order.now }
    ensures lists { MatchResult result (λ p. ArePrimalLists (length simplex.now.places) rows.now order.now p.list p.extreme p.cover.simplices p.cover.forms × HasPassedAll (ArePlacings (length simplex.now.places) p.extreme) told_before (seen watch.old) (seen watch.new)) (λ e. IsPrimalRefusal (length simplex.now.places) rows.now order.now limit told_before (seen watch.old) (seen watch.new) e) }
    ensures within { IfOk result (λ p. length p.list ≤ limit) }
    ensures stages { IfOk result (λ p. HasStageCount (length simplex.now.places) p.extreme p.stages) }
    ensures range { IfErr result (WhereRange (HasPrimalAbove T.HALF (length simplex.now.places) rows.now order.now)) }
{
    let (extreme, second) = match settled(alloc, rows, simplex, order) {
        Ok(settled) => settled,
        Err(refusal) => return Err(before_stages(refusal, told_before)),
    };
    let cover = match place(alloc, &second.rays, second.base.rank(), told_before, watch) {
        Ok(cover) => cover,
        Err(refusal) => return Err(refusal),
    };
    match elements(alloc, &second, &cover, limit) {
        Ok(list) => Ok(PrimalLists {
            list,
            extreme,
            cover,
            stages: stages(&second),
        }),
        Err(refusal) => Err(after_stages(refusal, told_before, stages(&second))),
    }
}

// The extreme generators in their order, and their second coordinates.
fn settled<T: Scalar>(
    alloc: Global,
    rows: &Rows<T>,
    simplex: &Simplex<T>,
    order: &Rows<T>,
) -> Result<(Rows<T>, Second<T>), Num>
    requires widths { Each (HasWidth (length simplex.now.places)) rows.now }
    requires simplex { IsSimplexOf (length simplex.now.places) rows.now simplex.now.places simplex.now.rays }
    requires order { AreSeparating (length simplex.now.places) order.now }
    ensures found { IfOk result (λ p. IsSettled (length simplex.now.places) rows.now order.now p.0 p.1.base p.1.rays p.1.rows) }
    ensures sweeps { IfOk result (λ p. Sweeps (MoveOn p.0) rows.now (whole_base (length simplex.now.places)) p.1.base) }
    ensures cause { IfErr result (λ e. e ≡ Num.Range → IsSettleCause T.HALF T.fits (length simplex.now.places) rows.now order.now) }
{
    let extreme = match generators(alloc, rows, simplex, order) {
        Ok(extreme) => extreme,
        Err(refusal) => return Err(refusal),
    };
    match in_second(alloc, rows, simplex.places.len(), &extreme) {
        Ok(second) => Ok((extreme, second)),
        Err(refusal) => Err(refusal),
    }
}

// How many stages there are: one for each number of rays from the rank on, and none without rays.
fn stages<T: Scalar>(second: &Second<T>) -> u64
    requires { length second.now.base.vectors ≡ 0 → length second.now.rays ≡ 0 }
    ensures { result ≡ stage_count (length second.now.base.vectors) (length second.now.rays) }
{
    let (count, rank) = (second.rays.len(), second.base.rank());
    if count == 0 || count < rank {
        return 0;
    }
    (count - rank) as u64 + 1
}

// A refusal before the first stage.
fn before_stages(refusal: Num, told_before: u64) -> Work
    ensures { IsFirstRefusal refusal told_before result }
{
    match refusal {
        Num::Range => Work::Range { told: told_before },
        Num::NoMemory => Work::NoMemory,
    }
}

// A refusal after the last stage.
fn after_stages(refusal: Work, told_before: u64, passed: u64) -> Work
    ensures { IsLastRefusal refusal told_before passed result }
{
    match refusal {
        Work::Range { .. } => Work::Range {
            told: told_before.max(passed),
        },
        other => other,
    }
}
