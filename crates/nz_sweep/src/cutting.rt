// Cuts of a base: the vectors of its group at which a form is 0, or a multiple of a modulus.
ghost use Rattle.std.specs.Prelude.{◌≡◌, ◌⊎◌, ◌≤◌, ◌≤ℤ◌, ◌<ℤ◌, ◌*ℤ◌, pos, length, unsigned_abs, Contains, IfOk, MatchOption, MatchResult};
ghost use Rattle.std.specs.List.{AllByRecursion as Each, insert, remove};
ghost use Rattle.nz_spec.specs.Vectors.{scaled, HasWidth};
ghost use Rattle.nz_sweep.specs.Clearing.{vectors_of};
ghost use Rattle.nz_sweep.specs.Cuts.{IsEquationStep, IsCongruenceStep, IsCofactor, IsMultiplied};
ghost use Rattle.nz_sweep.specs.Duals.{AreDual, IsLowered, coordinate_at};
ghost use Rattle.nz_sweep.specs.Numbers.{SomeNumberLarge, IsEquationNumber, IsMultiplyingNumber, IsCongruenceNumber};
ghost use Rattle.nz_sweep.specs.Rounds.{IsEquationMove, IsCongruenceMove, IsInLowestTerms, IsMultipliedWith};

use crate::clearing::{Cleared, clear_all};
use crate::coordinates::{Coordinate, copies, lowest};
use crate::floors::floor;
use crate::pivots::least;
use crate::valued::{Valued, rows, with_remainders, with_values};
use nz_vec::{Num, Row, Scalar};
use std::alloc::Global;

/// A base with its coordinates.
#[derive(Drop)]
pub(crate) struct DualBase<T: Scalar> {
    pub(crate) base: Vec<Row<T>>,
    pub(crate) coordinates: Vec<Coordinate<T>>,
}

/// A base of the vectors at which the form is 0.
pub(crate) fn zeros<T: Scalar>(
    alloc: Global,
    width: usize,
    base: &[Row<T>],
    coordinates: &[Coordinate<T>],
    form: &Row<T>,
) -> Result<DualBase<T>, Num>
    requires width { length form.now ≡ width }
    requires widths { Each (HasWidth width) base.now }
    requires dual { AreDual width base.now coordinates.now }
    ensures step { IfOk result (λ r. IsEquationStep form.now base.now r.base.items) }
    ensures state { MatchResult result (λ r. IsEquationMove form.now (record { width = width; vectors = base.now; coordinates = coordinates.now }) (record { width = width; vectors = r.base.items; coordinates = r.coordinates.items })) (λ e. e ≡ Num.Range → SomeNumberLarge T.HALF (IsEquationNumber form.now (record { width = width; vectors = base.now; coordinates = coordinates.now }))) }
    ensures dual { IfOk result (λ r. AreDual width r.base.items r.coordinates.items) }
{
    let list = match with_values(alloc, base, form) {
        Ok(list) => list,
        Err(refusal) => return Err(refusal),
    };
    let coordinates = match copies(alloc, coordinates) {
        Ok(coordinates) => coordinates,
        Err(refusal) => return Err(Num::from(refusal)),
    };
    let place = match least(list.as_slice()) {
        Some(place) => place,
        None => return unchanged(alloc, list, coordinates),
    };
    match clear_all(alloc, width, list, coordinates, place) {
        Ok(cleared) => taken_out(alloc, width, cleared),
        Err(refusal) => Err(refusal),
    }
}

/// A base of the vectors at which the form is a multiple of the modulus.
pub(crate) fn multiples<T: Scalar>(
    alloc: Global,
    width: usize,
    base: &[Row<T>],
    coordinates: &[Coordinate<T>],
    form: &Row<T>,
    modulus: T,
) -> Result<DualBase<T>, Num>
    requires modulus { pos 1 ≤ℤ T.integer modulus }
    requires width { length form.now ≡ width }
    requires widths { Each (HasWidth width) base.now }
    requires dual { AreDual width base.now coordinates.now }
    ensures step { IfOk result (λ r. IsCongruenceStep form.now (T.integer modulus) base.now r.base.items) }
    ensures state { MatchResult result (λ r. IsCongruenceMove form.now (T.integer modulus) (record { width = width; vectors = base.now; coordinates = coordinates.now }) (record { width = width; vectors = r.base.items; coordinates = r.coordinates.items })) (λ e. e ≡ Num.Range → SomeNumberLarge T.HALF (IsCongruenceNumber form.now (T.integer modulus) (record { width = width; vectors = base.now; coordinates = coordinates.now }))) }
    ensures dual { IfOk result (λ r. AreDual width r.base.items r.coordinates.items) }
{
    let list = match with_remainders(alloc, base, form, modulus) {
        Ok(list) => list,
        Err(refusal) => return Err(refusal),
    };
    let coordinates = match copies(alloc, coordinates) {
        Ok(coordinates) => coordinates,
        Err(refusal) => return Err(Num::from(refusal)),
    };
    let place = match least(list.as_slice()) {
        Some(place) => place,
        None => return unchanged(alloc, list, coordinates),
    };
    match clear_all(alloc, width, list, coordinates, place) {
        Ok(cleared) => multiplied(alloc, width, cleared, modulus),
        Err(refusal) => Err(refusal),
    }
}

fn unchanged<T: Scalar>(
    alloc: Global,
    list: Vec<Valued<T>>,
    coordinates: Vec<Coordinate<T>>,
) -> Result<DualBase<T>, Num>
    ensures { MatchResult result (λ r. (r.base.items ≡ vectors_of list.items) × (r.coordinates.items ≡ coordinates.items)) (λ e. e ≡ Num.NoMemory) }
{
    match rows(alloc, list) {
        Ok(base) => Ok(DualBase { base, coordinates }),
        Err(refusal) => Err(refusal),
    }
}

// The cleared base without the vector that has a value.
fn taken_out<T: Scalar>(
    alloc: Global,
    width: usize,
    cleared: Cleared<T>,
) -> Result<DualBase<T>, Num>
    requires inside { cleared.place ≤ length cleared.others.items }
    requires dual { AreDual width (vectors_of (insert cleared.others.items cleared.place cleared.own)) cleared.coordinates.items }
    ensures left { MatchResult result (λ r. (r.base.items ≡ vectors_of cleared.others.items) × (r.coordinates.items ≡ remove cleared.coordinates.items cleared.place)) (λ e. e ≡ Num.NoMemory) }
    ensures dual { IfOk result (λ r. AreDual width r.base.items r.coordinates.items) }
{
    let Cleared {
        place,
        others,
        mut coordinates,
        ..
    } = cleared;
    coordinates.remove(place);
    match rows(alloc, others) {
        Ok(base) => Ok(DualBase { base, coordinates }),
        Err(refusal) => Err(refusal),
    }
}

// The cleared base with a multiple of the vector that has a remainder.
fn multiplied<T: Scalar>(
    alloc: Global,
    width: usize,
    cleared: Cleared<T>,
    modulus: T,
) -> Result<DualBase<T>, Num>
    requires modulus { pos 1 ≤ℤ T.integer modulus }
    requires inside { cleared.place ≤ length cleared.others.items }
    requires dual { AreDual width (vectors_of (insert cleared.others.items cleared.place cleared.own)) cleared.coordinates.items }
    ensures multiplied { IfOk result (λ r. IsMultiplied (T.integer modulus) cleared.place cleared.own (vectors_of cleared.others.items) r.base.items) }
    ensures state { MatchResult result (λ r. IsMultipliedWith (T.integer modulus) cleared.place cleared.own (vectors_of cleared.others.items) cleared.coordinates.items r.base.items r.coordinates.items) (λ e. e ≡ Num.Range → (T.HALF <ℤ T.integer modulus) ⊎ SomeNumberLarge T.HALF (IsMultiplyingNumber (T.integer modulus) cleared.own (coordinate_at cleared.coordinates.items cleared.place))) }
    ensures dual { IfOk result (λ r. AreDual width r.base.items r.coordinates.items) }
{
    let Cleared {
        place,
        own,
        others,
        mut coordinates,
    } = cleared;
    let factor = match cofactor(own.value, modulus) {
        Some(factor) => factor,
        None => return Err(Num::Range),
    };
    let row = match times(alloc, factor, &own.row) {
        Ok(row) => row,
        Err(refusal) => return Err(refusal),
    };
    let coordinate = match over(alloc, &coordinates[place], factor) {
        Ok(coordinate) => coordinate,
        Err(refusal) => return Err(refusal),
    };
    coordinates[place] = coordinate;
    let mut base = match rows(alloc, others) {
        Ok(base) => base,
        Err(refusal) => return Err(refusal),
    };
    match base.insert(place, row) {
        Ok(()) => Ok(DualBase { base, coordinates }),
        Err(_) => Err(Num::NoMemory),
    }
}

// The coordinate at a multiple of its vector.
fn over<T: Scalar>(
    alloc: Global,
    coordinate: &Coordinate<T>,
    factor: T,
) -> Result<Coordinate<T>, Num>
    requires divisor { pos 0 <ℤ coordinate.now.divisor }
    requires factor { pos 0 <ℤ T.integer factor }
    ensures lowered { IfOk result (IsLowered coordinate.now.form (coordinate.now.divisor *ℤ T.integer factor)) }
    ensures lowest { MatchResult result (IsInLowestTerms coordinate.now.form (coordinate.now.divisor *ℤ T.integer factor)) (λ e. e ≡ Num.Range → T.HALF <ℤ pos (unsigned_abs (coordinate.now.divisor *ℤ T.integer factor))) }
{
    match coordinate.divisor.try_mul(factor) {
        Some(divisor) => lowest(alloc, &coordinate.form, divisor),
        None => Err(Num::Range),
    }
}

// The modulus divided by its greatest common divisor with the value.
fn cofactor<T: Scalar>(value: T, modulus: T) -> Option<T>
    requires { pos 1 ≤ℤ T.integer modulus }
    ensures { MatchOption result (T.HALF <ℤ T.integer modulus) (λ t. IsCofactor (T.integer value) (T.integer modulus) (T.integer t)) }
{
    let divisor = match value.gcd(modulus) {
        Some(divisor) => divisor,
        None => return None,
    };
    Some(floor(modulus, divisor))
}

pub(crate) fn times<T: Scalar>(alloc: Global, factor: T, row: &Row<T>) -> Result<Row<T>, Num>
    ensures { MatchResult result (λ r. r ≡ scaled (T.integer factor) row.now) (λ e. e ≡ Num.Range → SomeNumberLarge T.HALF (λ n. (n ≡ T.integer factor) ⊎ Contains row.now n)) }
{
    Row::combine(alloc, factor, row, T::of_i64(0), row)
}
