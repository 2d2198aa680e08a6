// The elements of a system by the dual algorithm: its rows are taken in one by one.
ghost use Rattle.std.specs.Prelude.{◌≡◌, ◌≤◌, ◌+◌, ◌-◌, max, IsTrue, length, IfOk, IfErr, MatchResult};
ghost use Rattle.nz_spec.specs.Elements.{AreExtreme};
ghost use Rattle.nz_pointed.specs.Pointed.{IsSimplexOf};
ghost use Rattle.nz_watch.specs.Telling.{HasPassedAll};
ghost use Rattle.nz_measures.specs.Sweeps.{IsSwept};
ghost use Rattle.nz_measures.specs.Reaches.{IsDualReachAbove};
ghost use Rattle.nz_input.specs.declared.kind.Mode.TheVariants.{Dual};
ghost use Rattle.nz_frame.specs.Frames.{IsFrame};
ghost use Rattle.nz_solve.specs.Solutions.{AreToldOf, HasLeftWithin, IsInnerRefusal};
ghost use Rattle.nz_solve.specs.Parts.{AreElements, wants_description};

use crate::elements::Elements;
use crate::lists::put_in_order;
use crate::refusal::{InnerRefusal, counted, unfinished};
use nz_dual::dual;
use nz_frame::Frame;
use nz_pointed::Simplex;
use nz_rays::extreme_rays;
use nz_sweep::all_vectors;
use nz_system::SystemOver;
use nz_vec::{NoMemory, Num, PlaceLists, Rows, Scalar};
use nz_watch::Watch;
use std::alloc::Global;

/// The irreducible elements, and the extreme generators where a goal needs them. No goal of this mode
/// needs a cover. The watch is told the stages of taking in the rows.
pub(crate) fn elements_by_dual<T: Scalar>(
    alloc: Global,
    system: &SystemOver<T>,
    frame: &Frame<T>,
    simplex: &Simplex<T>,
    limit: u32,
    told_before: u64,
    watch: &mut Box<dyn Watch>,
) -> Result<Elements<T>, InnerRefusal>
    requires dual { system.now.mode ≡ Dual }
    requires frame { IsFrame system.now.system frame.now.base frame.now.rows }
    requires swept { IsSwept system.now.system frame.now.base }
    requires simplex { IsSimplexOf (length frame.now.base.vectors) frame.now.rows simplex.now.places simplex.now.rays }
    ensures elements { MatchResult result (λ e. AreElements system.now e.list e.extreme e.simplices × HasPassedAll (AreToldOf Dual system.now.system) told_before (seen watch.old) (seen watch.new)) (λ e. IsInnerRefusal Dual system.now.system T.HALF limit told_before (seen watch.old) (seen watch.new) e) }
    ensures within { IfOk result (λ e. length e.list ≤ limit) }
    ensures told { IfOk result (λ e. HasLeftWithin Dual system.now.system limit told_before e.told (seen watch.old) (seen watch.new)) }
{
    system.kept();
    let found = match dual(alloc, &frame.rows, simplex, limit, told_before, watch) {
        Ok(found) => found,
        Err(refusal) => return Err(unfinished(refusal)),
    };
    let told = match told_after(frame.rows.len(), simplex.places.len(), told_before) {
        Ok(told) => told,
        Err(_) => return Err(InnerRefusal::NoMemory),
    };
    let list = match all_vectors(alloc, &frame.base, &found) {
        Ok(list) => list,
        Err(refusal) => return Err(counted(refusal, told)),
    };
    match extreme_where(alloc, system, frame, simplex) {
        Ok(extreme) => Ok(Elements {
            list,
            extreme,
            simplices: PlaceLists::new(alloc),
            told,
        }),
        Err(refusal) => Err(counted(refusal, told)),
    }
}

// How many first stages the watch was told after all: there is one for each number of rows from the rank on.
fn told_after(rows: usize, rank: usize, told_before: u64) -> Result<u64, NoMemory>
    ensures { IfOk result (λ told. told ≡ max told_before (rows + 1 - rank)) }
{
    let (rows, rank) = (rows as u64, rank as u64);
    let past = match rows.checked_add(1) {
        Some(past) => past,
        None => return Err(NoMemory),
    };
    if past < rank {
        return Ok(told_before);
    }
    Ok(told_before.max(past - rank))
}

// The extreme generators, where the extreme rays or the support forms are wanted.
fn extreme_where<T: Scalar>(
    alloc: Global,
    system: &SystemOver<T>,
    frame: &Frame<T>,
    simplex: &Simplex<T>,
) -> Result<Rows<T>, Num>
    requires frame { IsFrame system.now.system frame.now.base frame.now.rows }
    requires swept { IsSwept system.now.system frame.now.base }
    requires simplex { IsSimplexOf (length frame.now.base.vectors) frame.now.rows simplex.now.places simplex.now.rays }
    ensures extreme { IfOk result (λ x. IsTrue (wants_description system.now) → AreExtreme system.now.system x) }
    ensures cause { IfErr result (λ e. e ≡ Num.Range → IsDualReachAbove system.now.system T.HALF) }
{
    system.kept();
    if system.goals.rays {
        return extreme_generators(alloc, system, frame, simplex);
    }
    if system.goals.hyperplanes {
        return extreme_generators(alloc, system, frame, simplex);
    }
    Ok(Rows::new(alloc))
}

// The extreme generators in order: the vectors of the extreme rays of the rows.
fn extreme_generators<T: Scalar>(
    alloc: Global,
    system: &SystemOver<T>,
    frame: &Frame<T>,
    simplex: &Simplex<T>,
) -> Result<Rows<T>, Num>
    requires frame { IsFrame system.now.system frame.now.base frame.now.rows }
    requires swept { IsSwept system.now.system frame.now.base }
    requires simplex { IsSimplexOf (length frame.now.base.vectors) frame.now.rows simplex.now.places simplex.now.rays }
    ensures extreme { IfOk result (AreExtreme system.now.system) }
    ensures cause { IfErr result (λ e. e ≡ Num.Range → IsDualReachAbove system.now.system T.HALF) }
{
    system.kept();
    let rays = match extreme_rays(alloc, &frame.rows, simplex) {
        Ok(rays) => rays,
        Err(refusal) => return Err(refusal),
    };
    let list = match all_vectors(alloc, &frame.base, &rays) {
        Ok(list) => list,
        Err(refusal) => return Err(refusal),
    };
    match put_in_order(alloc, list, &system.grading) {
        Ok(list) => Ok(list),
        Err(refusal) => Err(refusal),
    }
}
