//! The units and the irreducible classes of a system.
ghost use Rattle.std.specs.Prelude.{◌≡◌, ◌≤◌, ◌⊎◌, length, map, IsTrue, None, IfOk, IfErr};
ghost use Rattle.std.specs.List.{AllByRecursion as Each};
ghost use Rattle.std.specs.List.Sorted.{IsPermutation};
ghost use Rattle.nz_spec.specs.Vectors.{unit_vectors, HasWidth};
ghost use Rattle.nz_degree.specs.Degrees.{IsInOrder};
ghost use Rattle.nz_degree.specs.Levels.{HasEntry};
ghost use Rattle.nz_sweep.specs.Lists.{LacksVector};
ghost use Rattle.nz_frame.specs.Frames.{vector_at};
ghost use Rattle.nz_units.specs.UnitLists.{AreUnitLists};
ghost use Rattle.nz_units.specs.Refusals.{IsUnitRefusal};
ghost use Rattle.nz_units.specs.SystemUnits.{AreByLevel, AreSystemUnits};
ghost use Rattle.nz_units.specs.SystemRefusals.{IsSystemRefusal};

use crate::irreducibles::work_of;
use crate::unit_lists::{UnitLists, sorted, units};
use nz_degree::split;
use nz_frame::{Frame, frame_of};
use nz_sweep::all_vectors;
use nz_system::SystemOver;
use nz_vec::{NoMemory, Num, Rows, Scalar, Work, units as unit_rows};
use std::alloc::Global;

/// The units of a system, and one vector for each irreducible class: of level 1, which are the
/// `modules`, and of level 0; or all, where there is no level.
#[derive(Drop)]
pub struct SystemUnits<T: Scalar> {
    pub units: Rows<T>,
    pub modules: Rows<T>,
    pub classes: Rows<T>,
}

/// The units of a system in the order of their split, and lexicographically one vector of each irreducible
/// class, by level: no more than the limit. A class of another level than 0 and 1 is in no list, and counts for the limit.
///
/// Range comes only where a number is above `HALF`: one of the system's own, one of `units` in the
/// coordinates of its base, or one of the way back from these. TooMany comes only where `units` there
/// has too many vectors for the limit. Stopped never comes, and no stage is told.
pub fn system_units<T: Scalar>(
    alloc: Global,
    system: &SystemOver<T>,
    limit: u32,
) -> Result<SystemUnits<T>, Work>
    ensures lists { IfOk result (λ u. AreSystemUnits limit system.now.system u.units u.modules u.classes) }
    ensures refusal { IfErr result (IsSystemRefusal T.HALF limit system.now.system) }
{
    system.kept();
    let frame = match frame_of(alloc, system) {
        Ok(frame) => frame,
        Err(refusal) => return Err(work_of(refusal)),
    };
    let there = match units_there(alloc, &frame, limit) {
        Ok(there) => there,
        Err(refusal) => return Err(refusal),
    };
    let back = match taken_to_file(alloc, &frame, &there) {
        Ok(back) => back,
        Err(refusal) => return Err(work_of(refusal)),
    };
    match by_level(alloc, system.level, back) {
        Ok(lists) => Ok(lists),
        Err(refusal) => Err(Work::from(refusal)),
    }
}

// The units and the classes in the coordinates of the base.
fn units_there<T: Scalar>(alloc: Global, frame: &Frame<T>, limit: u32) -> Result<UnitLists<T>, Work>
    requires wide { Each (HasWidth (length frame.now.base.vectors)) frame.now.rows }
    ensures lists { IfOk result (λ u. AreUnitLists (length frame.now.base.vectors) (unit_vectors (length frame.now.base.vectors)) frame.now.rows u.units u.classes) }
    ensures within { IfOk result (λ u. length u.classes ≤ limit) }
    ensures refusal { IfErr result (IsUnitRefusal T.HALF limit (unit_vectors (length frame.now.base.vectors)) frame.now.rows) }
{
    let lattice = match unit_rows(alloc, frame.base.rank()) {
        Ok(lattice) => Rows::from_vec(lattice),
        Err(refusal) => return Err(Work::from(refusal)),
    };
    match units(alloc, &lattice, &frame.rows, limit) {
        Ok(lists) => Ok(lists),
        Err(refusal) => Err(refusal),
    }
}

// Both lists in the coordinates of the file, the second in order.
fn taken_to_file<T: Scalar>(
    alloc: Global,
    frame: &Frame<T>,
    there: &UnitLists<T>,
) -> Result<UnitLists<T>, Num>
    requires units { Each (HasWidth (length frame.now.base.vectors)) there.now.units }
    requires classes { Each (HasWidth (length frame.now.base.vectors)) there.now.classes }
    ensures units { IfOk result (λ b. b.units ≡ map (λ c. vector_at frame.now.base c) there.now.units) }
    ensures classes { IfOk result (λ b. IsPermutation (map (λ c. vector_at frame.now.base c) there.now.classes) b.classes × IsInOrder None b.classes) }
    ensures cause { IfErr result (λ e. e ≡ Num.Range → LacksVector T.fits frame.now.base there.now.units ⊎ LacksVector T.fits frame.now.base there.now.classes) }
{
    let units = match all_vectors(alloc, &frame.base, &there.units) {
        Ok(units) => units,
        Err(refusal) => return Err(refusal),
    };
    let classes = match all_vectors(alloc, &frame.base, &there.classes) {
        Ok(classes) => classes,
        Err(refusal) => return Err(refusal),
    };
    match sorted(alloc, classes) {
        Ok(classes) => Ok(UnitLists { units, classes }),
        Err(refusal) => Err(Num::from(refusal)),
    }
}

// The classes of level 1 and those of level 0, where there is a level.
fn by_level<T: Scalar>(
    alloc: Global,
    level: bool,
    lists: UnitLists<T>,
) -> Result<SystemUnits<T>, NoMemory>
    requires { IsTrue level → Each HasEntry lists.classes }
    ensures units { IfOk result (λ u. u.units ≡ lists.units) }
    ensures levels { IfOk result (λ u. AreByLevel level lists.classes u.modules u.classes) }
{
    let UnitLists { units, classes } = lists;
    if !level {
        let modules = Rows::new(alloc);
        return Ok(SystemUnits {
            units,
            modules,
            classes,
        });
    }
    match split(alloc, &classes) {
        Ok(levels) => Ok(SystemUnits {
            units,
            modules: levels.one,
            classes: levels.zero,
        }),
        Err(refusal) => Err(refusal),
    }
}
