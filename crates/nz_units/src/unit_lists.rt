// The units and the irreducible classes of a lattice at rows.
ghost use Rattle.std.specs.Prelude.{◌≡◌, ◌≤◌, ℕ, List, length, None, IfOk, IfErr};
ghost use Rattle.std.specs.List.{AllByRecursion as Each};
ghost use Rattle.std.specs.List.Sorted.{IsPermutation};
ghost use Rattle.nz_spec.specs.Vectors.{Vector, HasWidth};
ghost use Rattle.nz_spec.specs.Sums.{IsIndependent};
ghost use Rattle.nz_degree.specs.Degrees.{IsInOrder};
ghost use Rattle.nz_units.specs.Splits.{AreForLattice, IsSplitBy, AreSplitParts};
ghost use Rattle.nz_units.specs.UnitLists.{AreUnitLists, width_of};
ghost use Rattle.nz_units.specs.Refusals.{IsUnitRefusal};

use crate::coordinates::{all_values, taken_back};
use crate::irreducibles::{irreducibles, work_of};
use crate::splitting::{Split, unit_split};
use nz_degree::sort;
use nz_vec::{NoMemory, Row, Rows, Scalar, Work};
use std::alloc::Global;

/// The units, and one vector for each irreducible class.
#[derive(Drop)]
pub struct UnitLists<T: Scalar> {
    pub units: Rows<T>,
    pub classes: Rows<T>,
}

/// The units of the vectors of the lattice at which the rows are at least 0, as `unit_split` gives
/// them, and lexicographically the vectors of the group of its rest that are of irreducible classes:
/// one for each class, and no more than the limit. The rows are read in the coordinates of the rest, where the dual algorithm
/// gives the irreducibles, which are taken back.
///
/// TooMany comes only where the first independent rows, and the classes of vectors at which each of
/// them is at least 0 and below its least positive value, are more than the limit; or where a later
/// stage, or a reversed one, has more irreducible classes. Stopped never comes, and Range tells of 0
/// stages. It comes only where a number is above `HALF`: one of the split, a measure of a row at the
/// rest or of what the dual algorithm forms in its coordinates, an entry of the rest, or the sum of
/// the sizes of the products by which an entry of a class is made of those of the rest.
pub fn units<T: Scalar>(
    alloc: Global,
    lattice: &Rows<T>,
    rows: &Rows<T>,
    limit: u32,
) -> Result<UnitLists<T>, Work>
    requires { AreForLattice lattice.now rows.now }
    ensures lists { IfOk result (λ u. (w : ℕ) → Each (HasWidth w) lattice.now → IsIndependent w lattice.now → AreUnitLists w lattice.now rows.now u.units u.classes) }
    ensures within { IfOk result (λ u. length u.classes ≤ limit) }
    ensures refusal { IfErr result (IsUnitRefusal T.HALF limit lattice.now rows.now) }
{
    let split = match unit_split(alloc, lattice, rows) {
        Ok(split) => split,
        Err(refusal) => return Err(work_of(refusal)),
    };
    match classes_of(alloc, &split, rows, limit) {
        Ok(classes) => Ok(UnitLists {
            units: split.units,
            classes,
        }),
        Err(refusal) => Err(refusal),
    }
}

// The vectors of the group of the rest that are of irreducible classes.
fn classes_of<T: Scalar>(
    alloc: Global,
    split: &Split<T>,
    rows: &Rows<T>,
    limit: u32,
) -> Result<Rows<T>, Work>
    requires { AreSplitParts rows.now split.now.units split.now.rest }
    ensures list { IfOk result (λ x. (lattice : List Vector) (w : ℕ) → Each (HasWidth w) lattice → IsIndependent w lattice → IsSplitBy lattice rows.now split.now.units split.now.rest → AreUnitLists w lattice rows.now split.now.units x) }
    ensures within { IfOk result (λ x. length x ≤ limit) }
    ensures refusal { IfErr result (λ e. (lattice : List Vector) → AreForLattice lattice rows.now → IsSplitBy lattice rows.now split.now.units split.now.rest → IsUnitRefusal T.HALF limit lattice rows.now e) }
{
    let there = match all_values(alloc, &split.rest, rows) {
        Ok(there) => there,
        Err(refusal) => return Err(work_of(refusal)),
    };
    let found = match irreducibles(alloc, &there, split.rest.len(), limit) {
        Ok(found) => found,
        Err(refusal) => return Err(refusal),
    };
    let width = width_of(&split.rest);
    let list = match taken_back(alloc, width, &split.rest, &found) {
        Ok(list) => list,
        Err(refusal) => return Err(work_of(refusal)),
    };
    match sorted(alloc, list) {
        Ok(classes) => Ok(classes),
        Err(refusal) => Err(Work::from(refusal)),
    }
}

// The width of the vectors, and 0 where there are none.
fn width_of<T: Scalar>(vectors: &Rows<T>) -> usize
    ensures { result ≡ width_of vectors.now }
{
    if vectors.len() == 0 {
        0
    } else {
        vectors.at(0).len()
    }
}

// The list, lexicographically.
pub(crate) fn sorted<T: Scalar>(alloc: Global, mut list: Rows<T>) -> Result<Rows<T>, NoMemory>
    ensures { IfOk result (λ r. IsPermutation list r × IsInOrder None r) }
{
    match sort(alloc, &mut list, no_grading()) {
        Ok(()) => Ok(list),
        Err(_) => Err(NoMemory),
    }
}

// Vectors are sorted by no degree.
fn no_grading<'a, T: Scalar>() -> Option<&'a Row<T>>
    ensures { result ≡ None }
{
    None
}
