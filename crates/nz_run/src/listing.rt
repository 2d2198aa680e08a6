//! A run that lists units: those of the file's system, and one vector for each irreducible class.
ghost use Rattle.std.specs.Prelude.{◌≡◌, ◌++◌, IfOk, MatchResult, OnOk};
ghost use Rattle.nz_watch.specs.Telling.{Watched};
ghost use Rattle.nz_run.specs.UnitRuns.{module_block, units_text, AreUnitsFound, IsUnitsCause};

use crate::Status;
use crate::refusals::status_of_work;
use nz_blocks::{put_block, put_space};
use nz_ideal::meaning_of;
use nz_input::{File, Goals};
use nz_system::SystemRefusal;
use nz_units::{SystemUnits, system_units};
use nz_vec::{Bytes, NoMemory, Rows};
use std::alloc::Global;

// The block of the representatives of level 1, where there is a level.
fn put_modules(
    alloc: Global,
    out: &mut Bytes,
    level: bool,
    modules: &Rows<i128>,
) -> Result<(), NoMemory>
    ensures { OnOk result (out.new ≡ out.old ++ module_block level modules.now) }
{
    if level {
        put_block(alloc, out, b" module representatives:".as_slice(), modules)
    } else {
        Ok(())
    }
}

// The text of the lists.
fn text_of_units(
    alloc: Global,
    amb: u32,
    level: bool,
    lists: &SystemUnits<i128>,
) -> Result<Bytes, NoMemory>
    ensures { IfOk result (λ text. text ≡ units_text amb level lists.now.units lists.now.modules lists.now.classes) }
{
    let mut out = Bytes::new(alloc);
    put_space(&mut out, amb, level)?;
    put_block(alloc, &mut out, b" unit vectors:".as_slice(), &lists.units)?;
    put_modules(alloc, &mut out, level, &lists.modules)?;
    put_block(
        alloc,
        &mut out,
        b" irreducible representatives:".as_slice(),
        &lists.classes,
    )?;
    Ok(out)
}

/// The text of the units and of the representatives of the irreducible classes of the file's system, or the
/// status that ends the run before the store. The goals are checked and change nothing; no stage is told.
pub(crate) fn units_listed(
    alloc: Global,
    file: &File,
    goals: &Goals,
    limit: u32,
) -> Result<Bytes, Status>
    ensures { MatchResult result (λ text. (w : Watched) → AreUnitsFound goals.now limit w w file.now text) (λ status. (w : Watched) → IsUnitsCause goals.now limit w w file.now status) }
{
    let system = match meaning_of(alloc, file, goals) {
        Ok(system) => system,
        Err(SystemRefusal::Meaning { item, row, fault }) => {
            return Err(Status::Meaning { item, row, fault });
        }
        Err(SystemRefusal::NoMemory) => return Err(Status::NoMemory),
    };
    let lists = match system_units(alloc, &system, limit) {
        Ok(lists) => lists,
        Err(refusal) => return Err(status_of_work(refusal)),
    };
    match text_of_units(alloc, file.amb, system.level, &lists) {
        Ok(text) => Ok(text),
        Err(_) => Err(Status::NoMemory),
    }
}
