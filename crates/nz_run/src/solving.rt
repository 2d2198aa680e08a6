//! A plain run: a file's system, solved.
ghost use Rattle.std.specs.Prelude.{◌≡◌, MatchResult};
ghost use Rattle.nz_watch.specs.Telling.{HasPassedAll};
ghost use Rattle.nz_solve.specs.Solutions.{AreToldOf, IsSolveRefusal};
ghost use Rattle.nz_run.specs.Solving.{IsAnswered, IsFileSolved, IsSolveCause, status_of};

use crate::Status;
use nz_blocks::blocks;
use nz_ideal::meaning_of;
use nz_input::{File, Goals};
use nz_solve::{SolveRefusal, solve};
use nz_system::{System, SystemRefusal};
use nz_vec::Bytes;
use nz_watch::Watch;
use std::alloc::Global;

// The text for a system.
fn answer(
    alloc: Global,
    system: &System,
    limit: u32,
    watch: &mut Box<dyn Watch>,
) -> Result<Bytes, SolveRefusal>
    ensures { MatchResult result (λ text. IsAnswered system.now limit text × HasPassedAll (AreToldOf system.now.mode system.now.system) 0 (seen watch.old) (seen watch.new)) (IsSolveRefusal system.now.mode system.now.system limit (seen watch.old) (seen watch.new)) }
{
    system.kept();
    let outcome = match solve(alloc, system, limit, watch) {
        Ok(outcome) => outcome,
        Err(refusal) => return Err(refusal),
    };
    match blocks(alloc, &outcome) {
        Ok(text) => Ok(text),
        Err(_) => Err(SolveRefusal::NoMemory),
    }
}

fn status_of(refusal: SolveRefusal) -> Status
    ensures { result ≡ status_of refusal }
{
    match refusal {
        SolveRefusal::Line(vector) => Status::Line(vector),
        SolveRefusal::Grade(vector) => Status::Grade(vector),
        SolveRefusal::Range => Status::Range,
        SolveRefusal::TooMany => Status::TooMany,
        SolveRefusal::Stopped { stage } => Status::Stopped { stage },
        SolveRefusal::NoMemory => Status::NoMemory,
    }
}

/// The text of what the file and these goals of the words ask, or the status that ends the run before the store.
pub(crate) fn file_solved(
    alloc: Global,
    file: &File,
    goals: &Goals,
    limit: u32,
    watch: &mut Box<dyn Watch>,
) -> Result<Bytes, Status>
    ensures { MatchResult result (IsFileSolved goals.now limit (seen watch.old) (seen watch.new) file.now) (IsSolveCause goals.now limit (seen watch.old) (seen watch.new) file.now) }
{
    let system = match meaning_of(alloc, file, goals) {
        Ok(system) => system,
        Err(SystemRefusal::Meaning { item, row, fault }) => {
            return Err(Status::Meaning { item, row, fault });
        }
        Err(SystemRefusal::NoMemory) => return Err(Status::NoMemory),
    };
    match answer(alloc, &system, limit, watch) {
        Ok(text) => Ok(text),
        Err(refusal) => Err(status_of(refusal)),
    }
}
