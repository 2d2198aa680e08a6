// The elements of a system by the algorithm of its mode.
ghost use Rattle.std.specs.Prelude.{◌≡◌, ◌≤◌, length, IfOk, MatchResult};
ghost use Rattle.nz_pointed.specs.Pointed.{IsSimplexOf};
ghost use Rattle.nz_watch.specs.Telling.{HasPassedAll};
ghost use Rattle.nz_measures.specs.Sweeps.{IsSwept};
ghost use Rattle.nz_frame.specs.Frames.{IsFrame};
ghost use Rattle.nz_solve.specs.Solutions.{AreToldOf, HasLeftWithin, IsInnerRefusal};
ghost use Rattle.nz_solve.specs.Parts.{AreElements};

use crate::by_dual::elements_by_dual;
use crate::by_primal::elements_by_primal;
use crate::refusal::InnerRefusal;
use nz_frame::Frame;
use nz_input::Mode;
use nz_pointed::Simplex;
use nz_system::SystemOver;
use nz_vec::{PlaceLists, Rows, Scalar};
use nz_watch::Watch;
use std::alloc::Global;

/// The irreducible elements in any order, the extreme generators in theirs, and the simplices of a
/// cover by the places of these.
#[derive(Drop)]
pub(crate) struct Elements<T: Scalar> {
    pub(crate) list: Rows<T>,
    pub(crate) extreme: Rows<T>,
    pub(crate) simplices: PlaceLists,
    /// How many first stages the watch was told, before the call or in it.
    pub(crate) told: u64,
}

/// The elements of a system without a line, whose stages the watch is told.
pub(crate) fn elements_of<T: Scalar>(
    alloc: Global,
    system: &SystemOver<T>,
    frame: &Frame<T>,
    simplex: &Simplex<T>,
    limit: u32,
    told_before: u64,
    watch: &mut Box<dyn Watch>,
) -> Result<Elements<T>, InnerRefusal>
    requires frame { IsFrame system.now.system frame.now.base frame.now.rows }
    requires swept { IsSwept system.now.system frame.now.base }
    requires simplex { IsSimplexOf (length frame.now.base.vectors) frame.now.rows simplex.now.places simplex.now.rays }
    ensures elements { MatchResult result (λ e. AreElements system.now e.list e.extreme e.simplices × HasPassedAll (AreToldOf system.now.mode system.now.system) told_before (seen watch.old) (seen watch.new)) (λ e. IsInnerRefusal system.now.mode system.now.system T.HALF limit told_before (seen watch.old) (seen watch.new) e) }
    ensures within { IfOk result (λ e. length e.list ≤ limit) }
    ensures told { IfOk result (λ e. HasLeftWithin system.now.mode system.now.system limit told_before e.told (seen watch.old) (seen watch.new)) }
{
    system.kept();
    match system.mode {
        Mode::Primal => {
            match elements_by_primal(alloc, system, frame, simplex, limit, told_before, watch) {
                Ok(elements) => Ok(elements),
                Err(refusal) => Err(refusal),
            }
        }
        Mode::Dual => {
            match elements_by_dual(alloc, system, frame, simplex, limit, told_before, watch) {
                Ok(elements) => Ok(elements),
                Err(refusal) => Err(refusal),
            }
        }
    }
}
