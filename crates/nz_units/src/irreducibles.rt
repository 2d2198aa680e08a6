// The irreducibles of rows without a line.
ghost use Rattle.std.specs.Prelude.{◌≡◌, ◌≤◌, length, IfOk, MatchResult};
ghost use Rattle.std.specs.List.{AllByRecursion as Each};
ghost use Rattle.nz_spec.specs.Vectors.{HasWidth};
ghost use Rattle.nz_spec.specs.Order.{IsLexBefore, IsListOf};
ghost use Rattle.nz_linear.specs.Extreme.{IsPointed};
ghost use Rattle.nz_dual.specs.DualStages.{IsElement};
ghost use Rattle.nz_dual.specs.Runs.{IsLeftAs};
ghost use Rattle.nz_dual.specs.Sides.{IsWorkOf};
ghost use Rattle.nz_units.specs.Refusals.{IsRestRefusal};

use nz_dual::dual;
use nz_rays::first_rows;
use nz_vec::{Num, Rows, Scalar, Work};
use nz_watch::{QuietWatch, Watch};
use std::alloc::Global;

/// The irreducibles, lexicographically, of the whole vectors at which the rows are at least 0, which
/// vanish together only at 0; no more of them than the limit.
pub(crate) fn irreducibles<T: Scalar>(
    alloc: Global,
    rows: &Rows<T>,
    rank: usize,
    limit: u32,
) -> Result<Rows<T>, Work>
    requires wide { Each (HasWidth rank) rows.now }
    requires pointed { IsPointed rank rows.now }
    ensures list { MatchResult result (IsListOf IsLexBefore (IsElement rank rows.now)) (IsRestRefusal T.HALF limit rank rows.now) }
    ensures within { IfOk result (λ list. length list ≤ limit) }
{
    // There are no more stages than this, so each counts as told before, and none is told.
    let told = match (rows.len() as u64).checked_add(1) {
        Some(told) => told,
        None => return Err(Work::NoMemory),
    };
    let simplex = match first_rows(alloc, rows, rank) {
        Ok(simplex) => simplex,
        Err(refusal) => return Err(work_of(refusal)),
    };
    let mut watch: Box<dyn Watch> = match Box::new(alloc, QuietWatch::new()) {
        Ok(watch) => watch,
        Err(_) => return Err(Work::NoMemory),
    };
    match dual(alloc, rows, &simplex, limit, told, &mut watch) {
        Ok(list) => Ok(list),
        Err(refusal) => Err(untold(refusal)),
    }
}

/// The refusal of a call that only reckons.
pub(crate) fn work_of(refusal: Num) -> Work
    ensures { IsWorkOf refusal result }
{
    match refusal {
        Num::Range => Work::Range { told: 0 },
        Num::NoMemory => Work::NoMemory,
    }
}

/// The same refusal, where no stage was told.
fn untold(refusal: Work) -> Work
    ensures { IsLeftAs 0 0 refusal result }
{
    match refusal {
        Work::Range { told: _ } => Work::Range { told: 0 },
        Work::TooMany => Work::TooMany,
        Work::Stopped { stage } => Work::Stopped { stage },
        Work::NoMemory => Work::NoMemory,
    }
}
