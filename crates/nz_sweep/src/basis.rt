ghost use Rattle.std.specs.Prelude.{◌≡◌, ◌<◌, ◌≤ℤ◌, ◌↔◌, ℤ, pos, map, IfOk, IfErr, OnOk, OnErr, MatchOption, MatchResult, length};
ghost use Rattle.std.specs.List.{AllByRecursion as Each, AllZip};
ghost use Rattle.nz_spec.specs.Vectors.{Vector, combination, dot, unit_vectors, HasWidth, IsMultipleOf};
ghost use Rattle.nz_spec.specs.Sums.{IsInGroup};
ghost use Rattle.nz_spec.specs.Constraints.{MeetsAll};
ghost use Rattle.nz_linear.specs.Coordinates.{in_coordinates};
ghost use Rattle.nz_sweep.specs.Bases.{IsBase, column_of, CombinationSumsFit, ValueSumsFit};
ghost use Rattle.nz_sweep.specs.Cuts.{IsCut, IsEquationStep, IsCongruenceStep};
ghost use Rattle.nz_sweep.specs.Duals.{unit_coordinate};
ghost use Rattle.nz_sweep.specs.Numbers.{SomeNumberLarge, IsConstraintNumber, IsCoordinateNumber, IsGeneratingNumber, IsEquationNumber, IsCongruenceNumber};
ghost use Rattle.nz_sweep.specs.Rounds.{IsEquationMove, IsCongruenceMove};
ghost use Rattle.nz_sweep.specs.Generating.{AreSetApart, IsEchelon};
ghost use Rattle.nz_sweep.specs.GroupConstraints.{AreGroupConstraints, IsDualCoordinate};

use crate::constraining::group_constraints;
use crate::coordinates::{Coordinate, unit_coordinates};
use crate::cutting::{multiples, zeros};
use crate::generating::generated;
use crate::inside::{is_combination, whole_coordinates};
use nz_vec::{Constraints, NoMemory, Num, Row, Rows, Scalar, units};
use std::alloc::Global;
use std::marker::Model;

/// A lattice, by independent vectors that generate it. Beside them it keeps their coordinate forms,
/// which are what a vector of the lattice is told by.
#[derive(Drop)]
pub struct Basis<T: Scalar> {
    width: usize,
    base: Vec<Row<T>>,
    coordinates: Vec<Coordinate<T>>,
}

impl<T: Scalar> Model for Basis<T> {
    ghost use Rattle.nz_sweep.specs.Bases.{Base, IsBase};
    ghost use Rattle.nz_sweep.specs.Duals.{AreDual};

    ghost Value = { Base };

    ghost view = { λ b. record { width = b.width; vectors = b.base.items; coordinates = b.coordinates.items } };

    ghost invariant = { λ b. IsBase (record { width = b.width; vectors = b.base.items; coordinates = b.coordinates.items }) × AreDual b.width b.base.items b.coordinates.items };
}

impl<T: Scalar> Basis<T> {
    /// The lattice of all vectors of this width, by the unit vectors.
    pub fn whole(alloc: Global, width: usize) -> Result<Basis<T>, NoMemory>
        ensures units { IfOk result (λ b. (b.width ≡ width) × (b.vectors ≡ unit_vectors width) × (b.coordinates ≡ map unit_coordinate (unit_vectors width))) }
        ensures echelon { IfOk result (λ b. IsEchelon b.vectors) }
    {
        let base = match units(alloc, width) {
            Ok(base) => base,
            Err(refusal) => return Err(refusal),
        };
        match unit_coordinates(alloc, width) {
            Ok(coordinates) => Ok(Basis {
                width,
                base,
                coordinates,
            }),
            Err(refusal) => Err(refusal),
        }
    }

    /// The lattice of the sums of the rows, by vectors in echelon form: column by column the entries
    /// of the rows left are cleared by the least one, as in Euclid's algorithm, and the row that is
    /// left with an entry is set apart. Range comes only where a number of the steps is above `HALF`:
    /// an entry of a row at a moment of clearing, an entry of a dual form of the vectors at the end,
    /// or the sum of the sizes of the products of such a form and a vector.
    pub fn of_generators(alloc: Global, width: usize, rows: &Rows<T>) -> Result<Basis<T>, Num>
        requires { Each (HasWidth width) rows.now }
        ensures width { IfOk result (λ b. b.width ≡ width) }
        ensures same { IfOk result (λ b. (x : Vector) → IsInGroup width rows.now x ↔ IsInGroup width b.vectors x) }
        ensures echelon { IfOk result (λ b. IsEchelon b.vectors) }
        ensures steps { IfOk result (λ b. AreSetApart width 0 rows.now b.vectors) }
        ensures coordinates { IfOk result (λ b. AllZip (IsDualCoordinate width b.vectors) b.vectors b.coordinates) }
        ensures cause { IfErr result (λ e. e ≡ Num.Range → SomeNumberLarge T.HALF (IsGeneratingNumber width rows.now)) }
    {
        match generated(alloc, width, rows) {
            Ok(generated) => Ok(Basis {
                width,
                base: generated.base,
                coordinates: generated.coordinates,
            }),
            Err(refusal) => Err(refusal),
        }
    }

    /// The number of vectors.
    pub fn rank(&self) -> usize
        ensures count { result ≡ length self.now.vectors }
        ensures base { IsBase self.now }
    {
        self.base.len()
    }

    /// Constraints that exactly the vectors of the lattice meet: the equations of its vectors, and
    /// then for each vector, where it is not 1, the value of its dual form there as a modulus of that
    /// form. Range comes only where an entry of an equation or a dual form, or the sum of the sizes of
    /// the products of such a form and a vector, is above `HALF`.
    pub fn lattice_constraints(&self, alloc: Global) -> Result<Constraints<T>, Num>
        requires { IsEchelon self.now.vectors }
        ensures forms { MatchResult result (AreGroupConstraints self.now.width self.now.vectors) (λ e. e ≡ Num.Range → SomeNumberLarge T.HALF (IsConstraintNumber self.now.width self.now.vectors)) }
        ensures members { IfOk result (λ c. (x : Vector) → HasWidth self.now.width x → MeetsAll c x ↔ IsInGroup self.now.width self.now.vectors x) }
    {
        group_constraints(alloc, self.width, self.base.as_slice())
    }

    /// Leaves of the lattice exactly the vectors at which the form is 0. The vectors are cleared at
    /// the form by the least value, as in Euclid's algorithm, and the one left with a value is taken
    /// out. A refusal changes nothing. Range comes only where a number of the steps is above `HALF`:
    /// the sum of the sizes of the products of the form and a vector, an entry or a value of a vector,
    /// an entry or the divisor of a coordinate form, the common divisor of two of them, or a factor by
    /// which one takes in another.
    pub fn cut_equation(&mut self, alloc: Global, form: &Row<T>) -> Result<(), Num>
        requires { length form.now ≡ self.old.width }
        ensures width { self.new.width ≡ self.old.width }
        ensures cut { OnOk result (IsCut (λ x. dot form.now x ≡ pos 0) self.old.width self.old.vectors self.new.vectors) }
        ensures steps { OnOk result (IsEquationStep form.now self.old.vectors self.new.vectors) }
        ensures state { OnOk result (IsEquationMove form.now self.old self.new) }
        ensures cause { IfErr result (λ e. e ≡ Num.Range → SomeNumberLarge T.HALF (IsEquationNumber form.now self.old)) }
        ensures err { OnErr result (self.new ≡ self.old) }
    {
        let (base, coordinates) = (self.base.as_slice(), self.coordinates.as_slice());
        match zeros(alloc, self.width, base, coordinates, form) {
            Ok(cut) => {
                self.base = cut.base;
                self.coordinates = cut.coordinates;
                Ok(())
            }
            Err(refusal) => Err(refusal),
        }
    }

    /// Leaves of the lattice exactly the vectors at which the form is a multiple of the modulus. The
    /// vectors are cleared at the remainders, and the one left with a remainder is multiplied by the
    /// modulus divided by their greatest common divisor. A refusal changes nothing. Range comes only
    /// where a number of the steps is above `HALF`: those of an equation, the modulus, the factor of
    /// the vector that is left, or its divisor times that.
    pub fn cut_congruence(&mut self, alloc: Global, form: &Row<T>, modulus: T) -> Result<(), Num>
        requires form { length form.now ≡ self.old.width }
        requires modulus { pos 1 ≤ℤ T.integer modulus }
        ensures width { self.new.width ≡ self.old.width }
        ensures cut { OnOk result (IsCut (λ x. IsMultipleOf (T.integer modulus) (dot form.now x)) self.old.width self.old.vectors self.new.vectors) }
        ensures steps { OnOk result (IsCongruenceStep form.now (T.integer modulus) self.old.vectors self.new.vectors) }
        ensures state { OnOk result (IsCongruenceMove form.now (T.integer modulus) self.old self.new) }
        ensures cause { IfErr result (λ e. e ≡ Num.Range → SomeNumberLarge T.HALF (IsCongruenceNumber form.now (T.integer modulus) self.old)) }
        ensures err { OnErr result (self.new ≡ self.old) }
    {
        let (base, coordinates) = (self.base.as_slice(), self.coordinates.as_slice());
        match multiples(alloc, self.width, base, coordinates, form, modulus) {
            Ok(cut) => {
                self.base = cut.base;
                self.coordinates = cut.coordinates;
                Ok(())
            }
            Err(refusal) => Err(refusal),
        }
    }

    /// The vector with these coordinates. Range comes only where a product, or a sum of the first
    /// products for one entry, is no value of the type.
    pub fn vector(&self, alloc: Global, coordinates: &Row<T>) -> Result<Row<T>, Num>
        requires { length coordinates.now ≡ length self.now.vectors }
        ensures { MatchResult result (λ x. x ≡ combination self.now.width coordinates.now self.now.vectors) (λ e. e ≡ Num.Range → ¬ CombinationSumsFit T.fits self.now.width coordinates.now self.now.vectors) }
    {
        let mut entries = match Vec::with_capacity(alloc, self.width) {
            Ok(entries) => entries,
            Err(_) => return Err(Num::NoMemory),
        };
        for place in 0..self.width {
            let column = match column(alloc, self.base.as_slice(), place, self.width) {
                Ok(column) => column,
                Err(refusal) => return Err(Num::from(refusal)),
            };
            match coordinates.dot(&column) {
                Some(entry) => entries.push_reserved(entry),
                None => return Err(Num::Range),
            }
        }
        Ok(Row::from_vec(entries))
    }

    /// The coordinates of a vector of the lattice, which is their combination. None exactly where the
    /// vector is not in the lattice. Range comes only where an entry of the vector or of the base, or
    /// the sum of the sizes of the products of a coordinate form and the vector, is above `HALF`.
    pub fn coordinates(&self, alloc: Global, x: &Row<T>) -> Result<Option<Row<T>>, Num>
        requires { length x.now ≡ self.now.width }
        ensures { MatchResult result (λ o. MatchOption o (¬ IsInGroup self.now.width self.now.vectors x.now) (λ c. (length c ≡ length self.now.vectors) × (combination self.now.width c self.now.vectors ≡ x.now))) (λ e. e ≡ Num.Range → SomeNumberLarge T.HALF (IsCoordinateNumber self.now x.now)) }
    {
        let whole = match whole_coordinates(alloc, self.width, self.coordinates.as_slice(), x) {
            Ok(whole) => whole,
            Err(refusal) => return Err(refusal),
        };
        let factors = match whole {
            Some(factors) => factors,
            None => return Ok(None),
        };
        match is_combination(alloc, self.width, self.base.as_slice(), &factors, x) {
            Ok(true) => Ok(Some(factors)),
            Ok(false) => Ok(None),
            Err(refusal) => Err(refusal),
        }
    }

    /// The form on coordinates: its values at the vectors. Range comes only where a product, or a
    /// sum of the first products for one value, is no value of the type.
    pub fn pull(&self, alloc: Global, form: &Row<T>) -> Result<Row<T>, Num>
        requires { length form.now ≡ self.now.width }
        ensures { MatchResult result (λ f. f ≡ in_coordinates self.now.vectors form.now) (λ e. e ≡ Num.Range → ¬ ValueSumsFit T.fits form.now self.now.vectors) }
    {
        let mut values = match Vec::with_capacity(alloc, self.base.len()) {
            Ok(values) => values,
            Err(_) => return Err(Num::NoMemory),
        };
        for place in 0..self.base.len() {
            match form.dot(&self.base[place]) {
                Some(value) => values.push_reserved(value),
                None => return Err(Num::Range),
            }
        }
        Ok(Row::from_vec(values))
    }
}

/// The entries of the vectors at one column.
pub(crate) fn column<T: Scalar>(
    alloc: Global,
    base: &[Row<T>],
    place: usize,
    width: usize,
) -> Result<Row<T>, NoMemory>
    requires inside { place < width }
    requires widths { Each (HasWidth width) base.now }
    ensures { IfOk result (λ c. c ≡ column_of base.now place) }
{
    let mut entries = match Vec::with_capacity(alloc, base.len()) {
        Ok(entries) => entries,
        Err(_) => return Err(NoMemory),
    };
    for index in 0..base.len() {
        entries.push_reserved(base[index].at(place));
    }
    Ok(Row::from_vec(entries))
}
