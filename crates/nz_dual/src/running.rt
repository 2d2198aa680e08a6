// The whole run through the stages, and what it tells the watch.
ghost use Rattle.std.specs.Prelude.{◌≡◌, ◌≤◌, ◌∷◌, ◌++◌, ◌-◌, [], length, drop, false, IfOk, MatchResult};
ghost use Rattle.std.specs.List.{AllByRecursion as Each};
ghost use Rattle.nz_spec.specs.Vectors.{HasWidth};
ghost use Rattle.nz_spec.specs.Covers.{vectors_at};
ghost use Rattle.nz_spec.specs.Order.{IsLexBefore, IsListOf, HasNumber};
ghost use Rattle.nz_spec.specs.Stages.{AreStages};
ghost use Rattle.nz_pointed.specs.Pointed.{IsSimplexOf};
ghost use Rattle.nz_watch.specs.Telling.{WasTold, HasPassedAll};
ghost use Rattle.nz_dual.specs.DualStages.{IsElement};
ghost use Rattle.nz_dual.specs.Runs.{AreOrderedStages, NoneIsCrowded, IsRunRefusal, IsStopAt, IsLeftAs};
ghost use Rattle.nz_dual.specs.Refusals.{IsRowOf, IsStageOf};

use crate::Stage;
use crate::ordering::other_rows;
use nz_pointed::Simplex;
use nz_vec::{Rows, Scalar, Work};
use nz_watch::Watch;
use std::alloc::Global;

/// The irreducibles of the whole vectors at which all rows are at least 0, lexicographically, and no
/// more of them than the limit. The rows of the simplex come first, then the others in their order.
///
/// A stage is the number of rows so far and that of the irreducibles; the first `told_before` stages
/// are not told. The number of Range is the greater of `told_before` and the number of stages passed
/// in this call. TooMany and Range come as `Stage::start` or a `Stage::insert` gives them. A stage that
/// was passed is none at which TooMany could come.
pub fn dual<T: Scalar>(
    alloc: Global,
    rows: &Rows<T>,
    simplex: &Simplex<T>,
    limit: u32,
    told_before: u64,
    watch: &mut Box<dyn Watch>,
) -> Result<Rows<T>, Work>
    requires wide { Each (HasWidth (length simplex.now.places)) rows.now }
    requires simplex { IsSimplexOf (length simplex.now.places) rows.now simplex.now.places simplex.now.rays }
    ensures run { MatchResult result (λ list. IsListOf IsLexBefore (IsElement (length simplex.now.places) rows.now) list × HasPassedAll (AreStages (length simplex.now.places) (HasWidth (length simplex.now.places)) rows.now) told_before (seen watch.old) (seen watch.new)) (λ e. IsRunRefusal (AreStages (length simplex.now.places) (HasWidth (length simplex.now.places)) rows.now) (IsStageOf T.HALF limit (length simplex.now.places) rows.now (vectors_at rows.now simplex.now.places) simplex.now.rays) told_before (seen watch.old) (seen watch.new) e) }
    ensures within { IfOk result (λ list. length list ≤ limit) }
    ensures not_crowded { IfOk result (λ _. NoneIsCrowded (IsStageOf T.HALF limit (length simplex.now.places) rows.now (vectors_at rows.now simplex.now.places) simplex.now.rays)) }
{
    let others = match other_rows(alloc, rows, &simplex.places) {
        Ok(others) => others,
        Err(refusal) => return Err(Work::from(refusal)),
    };
    let stage = match all_inserted(alloc, rows, simplex, &others, limit, told_before, watch) {
        Ok(stage) => stage,
        Err(refusal) => return Err(refusal),
    };
    match stage.into_sorted(alloc) {
        Ok(list) => Ok(list),
        Err(refusal) => Err(Work::from(refusal)),
    }
}

/// The stage of all rows: that of the simplex, and then the others inserted one by one, each stage told.
fn all_inserted<T: Scalar>(
    alloc: Global,
    rows: &Rows<T>,
    simplex: &Simplex<T>,
    others: &Rows<T>,
    limit: u32,
    told_before: u64,
    watch: &mut Box<dyn Watch>,
) -> Result<Stage<T>, Work>
    requires wide { Each (HasWidth (length simplex.now.places)) (vectors_at rows.now simplex.now.places ++ others.now) }
    requires simplex { IsSimplexOf (length simplex.now.places) rows.now simplex.now.places simplex.now.rays }
    ensures { MatchResult result (λ s. (s.width ≡ length simplex.now.places) × (s.rows ≡ vectors_at rows.now simplex.now.places ++ others.now) × HasPassedAll (AreOrderedStages (length simplex.now.places) (vectors_at rows.now simplex.now.places ++ others.now)) told_before (seen watch.old) (seen watch.new) × (length s.list ≤ limit) × NoneIsCrowded (IsRowOf T.HALF limit (length simplex.now.places) (vectors_at rows.now simplex.now.places) simplex.now.rays others.now)) (λ e. IsRunRefusal (AreOrderedStages (length simplex.now.places) (vectors_at rows.now simplex.now.places ++ others.now)) (IsRowOf T.HALF limit (length simplex.now.places) (vectors_at rows.now simplex.now.places) simplex.now.rays others.now) told_before (seen watch.old) (seen watch.new) e) }
{
    let mut stage = match Stage::start(alloc, rows, simplex, limit) {
        Ok(stage) => stage,
        Err(refusal) => return Err(left(refusal, told_before, 0)),
    };
    match tell_stage(&stage, told_before, 0, watch) {
        Ok(()) => {}
        Err(refusal) => return Err(refusal),
    }
    for place in 0..others.len() {
        let passed = place as u64 + 1;
        match stage.insert(alloc, others.at(place), limit) {
            Ok(()) => {}
            Err(refusal) => return Err(left(refusal, told_before, passed)),
        }
        match tell_stage(&stage, told_before, passed, watch) {
            Ok(()) => {}
            Err(refusal) => return Err(refusal),
        }
    }
    Ok(stage)
}

/// Tells a stage to the watch, unless it is among the first that were told before.
fn tell_stage<T: Scalar>(
    stage: &Stage<T>,
    told_before: u64,
    passed: u64,
    watch: &mut Box<dyn Watch>,
) -> Result<(), Work>
    ensures number { HasNumber (IsElement stage.now.width stage.now.rows) (length stage.now.list) }
    ensures told { MatchResult result (λ _. WasTold (seen watch.old) (seen watch.new) (drop (told_before - passed) ((length stage.now.rows, length stage.now.list) ∷ [])) false) (λ e. IsStopAt told_before passed (length stage.now.rows, length stage.now.list) (seen watch.old) (seen watch.new) e) }
{
    let number = stage.number() as u64;
    let count = stage.list().len() as u64;
    if passed < told_before {
        return Ok(());
    }
    if watch.stage(number, count) {
        Ok(())
    } else {
        Err(Work::Stopped { stage: number })
    }
}

/// A refusal after so many stages were passed.
fn left(refusal: Work, told_before: u64, passed: u64) -> Work
    ensures { IsLeftAs told_before passed refusal result }
{
    match refusal {
        Work::Range { told: _ } => Work::Range {
            told: told_before.max(passed),
        },
        Work::TooMany => Work::TooMany,
        Work::Stopped { stage } => Work::Stopped { stage },
        Work::NoMemory => Work::NoMemory,
    }
}
