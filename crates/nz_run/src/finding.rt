//! From the bytes of the input to the bytes of the output, for each kind of run.
ghost use Rattle.std.specs.Prelude.{◌≡◌, IsTrue, MatchResult};
ghost use Rattle.nz_system.specs.Asked.{goals_of};
ghost use Rattle.nz_run.specs.Kinds.{IsFileFound, IsCauseIn};
ghost use Rattle.nz_run.specs.Runs.{IsFoundFor, IsCause};

use crate::Status;
use crate::converting::converted;
use crate::kinds::{RunKind, kind_for};
use crate::listing::units_listed;
use crate::pointing::points_listed;
use crate::solving::file_solved;
use nz_input::{File, Goals, ReadRefusal, read};
use nz_vec::Bytes;
use nz_watch::Watch;
use nz_words::RunOrder;
use std::alloc::Global;

/// The most bytes that an input may have.
pub const MOST: usize = 16_777_216;

/// What is to be stored for an input: of which kind the run is on it, and the text.
#[derive(Drop)]
pub(crate) struct FoundText {
    pub(crate) kind: RunKind,
    pub(crate) text: Bytes,
}

// What a run of this kind finds for a file.
fn file_found(
    alloc: Global,
    kind: RunKind,
    goals: &Goals,
    limit: u32,
    file: &File,
    watch: &mut Box<dyn Watch>,
) -> Result<Bytes, Status>
    requires { kind ≡ RunKind.LatticePoints → IsTrue (goals_of file.now goals.now).lattice_points }
    ensures { MatchResult result (IsFileFound kind goals.now limit (seen watch.old) (seen watch.new) file.now) (IsCauseIn kind goals.now limit (seen watch.old) (seen watch.new) file.now) }
{
    match kind {
        RunKind::Plain => file_solved(alloc, file, goals, limit, watch),
        RunKind::Convert => converted(alloc, file),
        RunKind::Units => units_listed(alloc, file, goals, limit),
        RunKind::LatticePoints => points_listed(alloc, file, goals, limit),
    }
}

/// What the run that is ordered stores for the input, or the status that ends it before the store.
pub(crate) fn found(
    alloc: Global,
    order: &RunOrder,
    input: &[u8],
    watch: &mut Box<dyn Watch>,
) -> Result<FoundText, Status>
    ensures { MatchResult result (λ found. IsFoundFor order.now found.kind (seen watch.old) (seen watch.new) input.now found.text) (IsCause order.now (seen watch.old) (seen watch.new) input.now) }
{
    if input.len() > MOST {
        return Err(Status::TooLong);
    }
    let file = match read(alloc, input) {
        Ok(file) => file,
        Err(
            ReadRefusal::Grammar {
                line,
                column,
                fault,
            },
        ) => return Err(Status::Grammar {
            line,
            column,
            fault,
        }),
        Err(ReadRefusal::NoMemory) => return Err(Status::NoMemory),
    };
    let kind = kind_for(order, &file);
    match file_found(alloc, kind, &order.goals, order.limit, &file, watch) {
        Ok(text) => Ok(FoundText { kind, text }),
        Err(status) => Err(status),
    }
}
