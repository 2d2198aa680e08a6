//! A run that lists lattice points: those of the polyhedron of the file's system, where that is bounded.
ghost use Rattle.std.specs.Prelude.{◌≡◌, IfOk, IsTrue, MatchResult};
ghost use Rattle.nz_system.specs.Asked.{goals_of};
ghost use Rattle.nz_watch.specs.Telling.{Watched};
ghost use Rattle.nz_run.specs.PointRuns.{points_text, ArePointsFound, IsPointsCause};

use crate::Status;
use crate::refusals::status_of_work;
use nz_blocks::{put_block, put_space};
use nz_ideal::meaning_of;
use nz_input::{File, Goals};
use nz_lift::{SystemPoints, system_points};
use nz_system::SystemRefusal;
use nz_vec::{Bytes, NoMemory, Rows};
use std::alloc::Global;

// The text of the points.
fn text_of_points(
    alloc: Global,
    amb: u32,
    level: bool,
    points: &Rows<i128>,
) -> Result<Bytes, NoMemory>
    ensures { IfOk result (λ text. text ≡ points_text amb level points.now) }
{
    let mut out = Bytes::new(alloc);
    put_space(&mut out, amb, level)?;
    put_block(alloc, &mut out, b" lattice points:".as_slice(), points)?;
    Ok(out)
}

/// The text of the lattice points of the file's system, or the status that ends the run before the store: Unbounded where the
/// system is not bounded. Lattice points are among the goals; all others are checked and change nothing. No stage is told.
pub(crate) fn points_listed(
    alloc: Global,
    file: &File,
    goals: &Goals,
    limit: u32,
) -> Result<Bytes, Status>
    requires { IsTrue (goals_of file.now goals.now).lattice_points }
    ensures { MatchResult result (λ text. (w : Watched) → ArePointsFound goals.now limit w w file.now text) (λ status. (w : Watched) → IsPointsCause goals.now limit w w file.now status) }
{
    let system = match meaning_of(alloc, file, goals) {
        Ok(system) => system,
        Err(SystemRefusal::Meaning { item, row, fault }) => {
            return Err(Status::Meaning { item, row, fault });
        }
        Err(SystemRefusal::NoMemory) => return Err(Status::NoMemory),
    };
    system.kept();
    let points = match system_points(alloc, &system, limit) {
        Ok(SystemPoints::Points(points)) => points,
        Ok(SystemPoints::Unbounded(vector)) => return Err(Status::Unbounded(vector)),
        Err(refusal) => return Err(status_of_work(refusal)),
    };
    match text_of_points(alloc, file.amb, system.level, &points) {
        Ok(text) => Ok(text),
        Err(_) => Err(Status::NoMemory),
    }
}
