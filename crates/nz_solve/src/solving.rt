ghost use Rattle.std.specs.Prelude.{◌≡◌, length, IfOk, MatchResult};
ghost use Rattle.nz_pointed.specs.Pointed.{IsSimplexOf};
ghost use Rattle.nz_watch.specs.Telling.{HasPassedAll};
ghost use Rattle.nz_measures.specs.Sweeps.{IsSwept};
ghost use Rattle.nz_system.specs.Meaning.{IsKept};
ghost use Rattle.nz_frame.specs.Elements.{IsWithin};
ghost use Rattle.nz_frame.specs.Frames.{IsFrame};
ghost use Rattle.nz_solve.specs.Solutions.{IsSolution, AreToldOf, IsSolveRefusal, IsInnerRefusal};

use crate::elements::elements_of;
use crate::lines::line_refusal;
use crate::outcomes::outcome;
use crate::refusal::{InnerRefusal, SolveRefusal, counted, with_told, without_told};
use nz_blocks::Outcome;
use nz_frame::{Frame, frame_of};
use nz_pointed::{Pointed, Simplex, start};
use nz_system::{System, SystemOver, narrow_system};
use nz_vec::Scalar;
use nz_watch::Watch;
use std::alloc::Global;

/// Solves a system by the algorithm of its mode: of its irreducible elements, its extreme generators, the
/// support forms of these and a cover by simplices of them what its goals ask, and each asked vector with its
/// parts or with the first constraint that it breaks. What is required every system keeps (`System::kept`).
///
/// The watch is told the stages of the mode, and nothing where there is a line. `limit` is the most irreducible
/// elements, in primal mode also the most points of one simplex, in dual mode the most irreducible elements of
/// a stage or a reversed one. Range comes only where a number that the run of this mode is known to form is above
/// `HALF` of 128 bits: one of the sweep of the lattice, a modulus, or the measure of a vector, a form, or a form at
/// a vector, in the coordinates of the file, of the lattice, or, in primal mode, of the cone. Only Stopped comes
/// after a stop of the watch.
///
/// The run begins with 64 bits. Where these are too few it begins again with 128, and tells no stage again.
pub fn solve(
    alloc: Global,
    system: &System,
    limit: u32,
    watch: &mut Box<dyn Watch>,
) -> Result<Outcome, SolveRefusal>
    requires { IsKept system.now }
    ensures outcome { MatchResult result (λ o. IsSolution system.now o × HasPassedAll (AreToldOf system.now.mode system.now.system) 0 (seen watch.old) (seen watch.new)) (λ e. IsSolveRefusal system.now.mode system.now.system limit (seen watch.old) (seen watch.new) e) }
    ensures within { IfOk result (λ _. IsWithin system.now.system limit) }
{
    let refusal = match solve_in::<i64>(alloc, system, limit, 0, watch) {
        Ok(outcome) => return Ok(outcome),
        Err(refusal) => refusal,
    };
    let told = match refusal {
        InnerRefusal::Range { told } => told,
        InnerRefusal::Line(line) => return Err(SolveRefusal::Line(line)),
        InnerRefusal::Grade(element) => return Err(SolveRefusal::Grade(element)),
        InnerRefusal::TooMany => return Err(SolveRefusal::TooMany),
        InnerRefusal::Stopped { stage } => return Err(SolveRefusal::Stopped { stage }),
        InnerRefusal::NoMemory => return Err(SolveRefusal::NoMemory),
    };
    match solve_in::<i128>(alloc, system, limit, told, watch) {
        Ok(outcome) => Ok(outcome),
        Err(refusal) => Err(without_told(refusal)),
    }
}

/// The same with the integers of one type, of which each entry of the system has to be one. The watch is told the
/// stages without the first `told_before`. Range comes only where a number that the run of this mode is known to
/// form is above `HALF` of the type; its number is that of the first stages told before or now.
pub fn solve_in<T: Scalar>(
    alloc: Global,
    system: &System,
    limit: u32,
    told_before: u64,
    watch: &mut Box<dyn Watch>,
) -> Result<Outcome, InnerRefusal>
    requires { IsKept system.now }
    ensures outcome { MatchResult result (λ o. IsSolution system.now o × HasPassedAll (AreToldOf system.now.mode system.now.system) told_before (seen watch.old) (seen watch.new)) (λ e. IsInnerRefusal system.now.mode system.now.system T.HALF limit told_before (seen watch.old) (seen watch.new) e) }
    ensures within { IfOk result (λ _. IsWithin system.now.system limit) }
{
    let narrow: SystemOver<T> = match narrow_system(alloc, system) {
        Ok(narrow) => narrow,
        Err(refusal) => return Err(counted(refusal, told_before)),
    };
    solve_narrow(alloc, &narrow, limit, told_before, watch)
}

fn solve_narrow<T: Scalar>(
    alloc: Global,
    system: &SystemOver<T>,
    limit: u32,
    told_before: u64,
    watch: &mut Box<dyn Watch>,
) -> Result<Outcome, InnerRefusal>
    ensures outcome { MatchResult result (λ o. IsSolution system.now o × HasPassedAll (AreToldOf system.now.mode system.now.system) told_before (seen watch.old) (seen watch.new)) (λ e. IsInnerRefusal system.now.mode system.now.system T.HALF limit told_before (seen watch.old) (seen watch.new) e) }
    ensures within { IfOk result (λ _. IsWithin system.now.system limit) }
{
    system.kept();
    let frame = match frame_of(alloc, system) {
        Ok(frame) => frame,
        Err(refusal) => return Err(counted(refusal, told_before)),
    };
    let pointed = match start(alloc, &frame.rows, frame.base.rank()) {
        Ok(pointed) => pointed,
        Err(refusal) => return Err(counted(refusal, told_before)),
    };
    match pointed {
        Pointed::Simplex(simplex) => {
            solve_pointed(alloc, system, &frame, &simplex, limit, told_before, watch)
        }
        Pointed::Line(line) => Err(line_refusal(alloc, &frame.base, &line, told_before)),
    }
}

// The outcome of a system without a line.
fn solve_pointed<T: Scalar>(
    alloc: Global,
    system: &SystemOver<T>,
    frame: &Frame<T>,
    simplex: &Simplex<T>,
    limit: u32,
    told_before: u64,
    watch: &mut Box<dyn Watch>,
) -> Result<Outcome, InnerRefusal>
    requires frame { IsFrame system.now.system frame.now.base frame.now.rows }
    requires swept { IsSwept system.now.system frame.now.base }
    requires simplex { IsSimplexOf (length frame.now.base.vectors) frame.now.rows simplex.now.places simplex.now.rays }
    ensures outcome { MatchResult result (λ o. IsSolution system.now o × HasPassedAll (AreToldOf system.now.mode system.now.system) told_before (seen watch.old) (seen watch.new)) (λ e. IsInnerRefusal system.now.mode system.now.system T.HALF limit told_before (seen watch.old) (seen watch.new) e) }
    ensures within { IfOk result (λ _. IsWithin system.now.system limit) }
{
    let elements = match elements_of(alloc, system, frame, simplex, limit, told_before, watch) {
        Ok(elements) => elements,
        Err(refusal) => return Err(refusal),
    };
    let told = elements.told;
    match outcome(alloc, system, elements) {
        Ok(outcome) => Ok(outcome),
        Err(refusal) => Err(with_told(refusal, told)),
    }
}
