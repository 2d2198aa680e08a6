// The elements of a system by the primal algorithm: a cover of the extreme generators by simplices, and
// the points of these.
ghost use Rattle.std.specs.Prelude.{◌≡◌, ◌⊎◌, ◌≤◌, map, length, IfOk, IfErr, MatchResult};
ghost use Rattle.std.specs.List.{AllByRecursion as Each};
ghost use Rattle.nz_spec.specs.Vectors.{HasWidth};
ghost use Rattle.nz_pointed.specs.Pointed.{IsSimplexOf};
ghost use Rattle.nz_sweep.specs.Lists.{LacksVector};
ghost use Rattle.nz_watch.specs.Telling.{HasPassedAll};
ghost use Rattle.nz_measures.specs.Sweeps.{IsSwept};
ghost use Rattle.nz_input.specs.declared.kind.Mode.TheVariants.{Primal};
ghost use Rattle.nz_frame.specs.Frames.{IsFrame, vector_at};
ghost use Rattle.nz_solve.specs.Solutions.{AreToldOf, HasLeftWithin, IsInnerRefusal};
ghost use Rattle.nz_solve.specs.Parts.{AreAllElements};

use crate::elements::Elements;
use crate::refusal::{InnerRefusal, counted, unfinished};
use nz_frame::{Frame, order_forms};
use nz_pointed::Simplex;
use nz_primal::{PrimalLists, primal};
use nz_sweep::{Basis, all_vectors};
use nz_system::SystemOver;
use nz_vec::{Num, Scalar};
use nz_watch::Watch;
use std::alloc::Global;

/// All elements, whatever the goals. The watch is told the stages of placing the extreme generators.
pub(crate) fn elements_by_primal<T: Scalar>(
    alloc: Global,
    system: &SystemOver<T>,
    frame: &Frame<T>,
    simplex: &Simplex<T>,
    limit: u32,
    told_before: u64,
    watch: &mut Box<dyn Watch>,
) -> Result<Elements<T>, InnerRefusal>
    requires frame { IsFrame system.now.system frame.now.base frame.now.rows }
    requires swept { IsSwept system.now.system frame.now.base }
    requires simplex { IsSimplexOf (length frame.now.base.vectors) frame.now.rows simplex.now.places simplex.now.rays }
    ensures elements { MatchResult result (λ e. AreAllElements system.now.system e.list e.extreme e.simplices × HasPassedAll (AreToldOf Primal system.now.system) told_before (seen watch.old) (seen watch.new)) (λ e. IsInnerRefusal Primal system.now.system T.HALF limit told_before (seen watch.old) (seen watch.new) e) }
    ensures within { IfOk result (λ e. length e.list ≤ limit) }
    ensures told { IfOk result (λ e. HasLeftWithin Primal system.now.system limit told_before e.told (seen watch.old) (seen watch.new)) }
{
    system.kept();
    let order = match order_forms(alloc, &frame.base, system.width as usize, &system.grading) {
        Ok(order) => order,
        Err(refusal) => return Err(counted(refusal, told_before)),
    };
    let lists = match primal(
        alloc,
        &frame.rows,
        simplex,
        &order,
        limit,
        told_before,
        watch,
    ) {
        Ok(lists) => lists,
        Err(refusal) => return Err(unfinished(refusal)),
    };
    let told = told_before.max(lists.stages);
    match bring_back(alloc, &frame.base, lists, told) {
        Ok(elements) => Ok(elements),
        Err(refusal) => Err(counted(refusal, told)),
    }
}

// The vectors of what the primal run found in coordinates of the base.
fn bring_back<T: Scalar>(
    alloc: Global,
    base: &Basis<T>,
    lists: PrimalLists<T>,
    told: u64,
) -> Result<Elements<T>, Num>
    requires list { Each (HasWidth (length base.now.vectors)) lists.list }
    requires extreme { Each (HasWidth (length base.now.vectors)) lists.extreme }
    ensures list { IfOk result (λ e. e.list ≡ map (vector_at base.now) lists.list) }
    ensures extreme { IfOk result (λ e. e.extreme ≡ map (vector_at base.now) lists.extreme) }
    ensures simplices { IfOk result (λ e. e.simplices ≡ lists.cover.simplices) }
    ensures told { IfOk result (λ e. e.told ≡ told) }
    ensures cause { IfErr result (λ e. e ≡ Num.Range → LacksVector T.fits base.now lists.list ⊎ LacksVector T.fits base.now lists.extreme) }
{
    let PrimalLists {
        list,
        extreme,
        cover,
        stages: _,
    } = lists;
    let list = match all_vectors(alloc, base, &list) {
        Ok(list) => list,
        Err(refusal) => return Err(refusal),
    };
    match all_vectors(alloc, base, &extreme) {
        Ok(extreme) => Ok(Elements {
            list,
            extreme,
            simplices: cover.simplices,
            told,
        }),
        Err(refusal) => Err(refusal),
    }
}
