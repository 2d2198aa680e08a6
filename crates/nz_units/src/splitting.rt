// The units and the rest of a lattice, row by row.
ghost use Rattle.std.specs.Prelude.{◌≡◌, ◌≢◌, ℕ, pos, ◌∷◌, [], ◌++◌, List, length, IfOk, IfErr, MatchResult, ◌<ℤ◌};
ghost use Rattle.std.specs.List.{AllByRecursion as Each};
ghost use Rattle.nz_spec.specs.Vectors.{Vector, HasWidth};
ghost use Rattle.nz_spec.specs.Sums.{IsIndependent};
ghost use Rattle.nz_range.specs.Measures.{measure};
ghost use Rattle.nz_further.specs.Units.{IsUnitSplit};
ghost use Rattle.nz_sweep.specs.Numbers.{SomeNumberLarge};
ghost use Rattle.nz_units.specs.Splits.{AreForLattice, IsTurnedBy, IsSplitBy, IsRowNumber, IsSplitNumber};

use nz_pointed::opposite;
use nz_sweep::take_out;
use nz_vec::{NoMemory, Num, Row, Rows, Scalar, is_positive};
use std::alloc::Global;

/// The units and the rest of a lattice.
#[derive(Drop)]
pub struct Split<T: Scalar> {
    pub units: Rows<T>,
    pub rest: Rows<T>,
}

// The vectors that are not set apart so far, and those that are.
#[derive(Drop)]
struct Parts<T: Scalar> {
    units: Vec<Row<T>>,
    rest: Vec<Row<T>>,
}

/// Splits independent vectors by the rows: together the two parts are independent and generate the
/// same group, all rows are 0 at the units, and at no nonzero vector of the group of the rest. Row
/// after row the vectors not yet set apart are cleared, as in Euclid's algorithm, and the one that is
/// left with a value is set apart, turned so that its value is positive. Range comes only where a
/// number of these steps is above `HALF`: the sum of the sizes of the products of a row and a vector,
/// an entry or a value at a moment of clearing, or the sum of the sizes of the entries of a vector
/// that is set apart and turned.
pub fn unit_split<T: Scalar>(
    alloc: Global,
    lattice: &Rows<T>,
    rows: &Rows<T>,
) -> Result<Split<T>, Num>
    requires { AreForLattice lattice.now rows.now }
    ensures steps { MatchResult result (λ s. IsSplitBy lattice.now rows.now s.units s.rest) (λ e. e ≡ Num.Range → SomeNumberLarge T.HALF (IsSplitNumber lattice.now rows.now)) }
    ensures split { IfOk result (λ s. (w : ℕ) → Each (HasWidth w) lattice.now → IsIndependent w lattice.now → IsUnitSplit w lattice.now rows.now s.units s.rest) }
{
    let units = match listed(alloc, lattice) {
        Ok(units) => units,
        Err(refusal) => return Err(Num::from(refusal)),
    };
    let mut parts = Parts {
        units,
        rest: Vec::new(alloc),
    };
    for place in 0..rows.len() {
        parts = match split_one(alloc, rows.at(place), parts) {
            Ok(parts) => parts,
            Err(refusal) => return Err(refusal),
        };
    }
    let Parts { units, rest } = parts;
    Ok(Split {
        units: Rows::from_vec(units),
        rest: Rows::from_vec(rest),
    })
}

fn listed<T: Scalar>(alloc: Global, rows: &Rows<T>) -> Result<Vec<Row<T>>, NoMemory>
    ensures { IfOk result (λ v. v.items ≡ rows.now) }
{
    let mut list = match Vec::with_capacity(alloc, rows.len()) {
        Ok(list) => list,
        Err(_) => return Err(NoMemory),
    };
    for place in 0..rows.len() {
        match rows.at(place).try_copy() {
            Ok(row) => list.push_reserved(row),
            Err(refusal) => return Err(refusal),
        }
    }
    Ok(list)
}

// One row more: the vectors not yet set apart are cleared, and the one left with a value is set apart.
fn split_one<T: Scalar>(alloc: Global, row: &Row<T>, parts: Parts<T>) -> Result<Parts<T>, Num>
    requires { Each (HasWidth (length row.now)) parts.units.items }
    ensures steps { IfOk result (λ p. (lattice seen : List Vector) → IsSplitBy lattice seen parts.units.items parts.rest.items → IsSplitBy lattice (seen ++ row.now ∷ []) p.units.items p.rest.items) }
    ensures cause { IfErr result (λ e. e ≡ Num.Range → SomeNumberLarge T.HALF (IsRowNumber row.now parts.units.items)) }
{
    let Parts { units, mut rest } = parts;
    let taken = match take_out(alloc, row, units.as_slice()) {
        Ok(Some(taken)) => taken,
        Ok(None) => return Ok(Parts { units, rest }),
        Err(refusal) => return Err(refusal),
    };
    let turned = match turned(alloc, taken.own, taken.value) {
        Ok(turned) => turned,
        Err(refusal) => return Err(refusal),
    };
    match rest.push(turned) {
        Ok(()) => Ok(Parts {
            units: taken.others,
            rest,
        }),
        Err(_) => Err(Num::NoMemory),
    }
}

// The vector, or its opposite where its value is below 0.
fn turned<T: Scalar>(alloc: Global, vector: Row<T>, value: T) -> Result<Row<T>, Num>
    requires { T.integer value ≢ pos 0 }
    ensures { MatchResult result (IsTurnedBy (T.integer value) vector) (λ e. e ≡ Num.Range → (T.integer value <ℤ pos 0) × (T.HALF <ℤ pos (measure vector))) }
{
    if is_positive(value) {
        Ok(vector)
    } else {
        opposite(alloc, &vector)
    }
}
