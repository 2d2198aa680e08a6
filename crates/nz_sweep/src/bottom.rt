// Forms of a base in echelon form, from the bottom: a form begins at a column, and is cleared of
// one vector after the other, the last first. It stays primitive, so up to the columns at which it
// is 0 so far it goes into the form at the end: no entry and no value is larger than one of that.
ghost use Rattle.std.specs.Prelude.{◌≡◌, ◌≢◌, ◌⊎◌, ◌<◌, ◌≤◌, ◌*ℤ◌, ◌<ℤ◌, ℕ, ℤ, List, pos, negsuc, length, unsigned_abs, IfOk, MatchOption, MatchResult};
ghost use Rattle.std.specs.List.{AllByRecursion as Each, AllZip};
ghost use Rattle.nz_spec.specs.Vectors.{entry, scaled, HasWidth, IsMultipleOf};
ghost use Rattle.nz_spec.specs.Forms.{LeadsAt};
ghost use Rattle.nz_linear.specs.Echelon.{unit_at};
ghost use Rattle.nz_sweep.specs.Duals.{vector_at};
ghost use Rattle.nz_sweep.specs.Generating.{AreLeading};
ghost use Rattle.nz_sweep.specs.Bottom.{column_at, AreLeastFactors, IsClearedOf, IsFromBottom, IsDualAt, AreDualEach};
ghost use Rattle.nz_sweep.specs.Numbers.{SomeNumberLarge, IsDualNumber, IsBottomNumber, IsBottomStepNumber};

use crate::coordinates::Coordinate;
use crate::cutting::times;
use crate::floors::floor;
use nz_vec::{NoMemory, Num, Row, Scalar, is_negative, is_nonzero, unit};
use std::alloc::Global;

/// The columns of the first nonzero entries.
pub(crate) fn leading_columns<T: Scalar>(
    alloc: Global,
    base: &[Row<T>],
) -> Result<Vec<usize>, NoMemory>
    ensures { IfOk result (λ v. (columns : List ℕ) → AllZip LeadsAt columns base.now → v.items ≡ columns) }
{
    let mut columns = match Vec::with_capacity(alloc, base.len()) {
        Ok(columns) => columns,
        Err(_) => return Err(NoMemory),
    };
    for place in 0..base.len() {
        columns.push_reserved(leading_column(&base[place]));
    }
    Ok(columns)
}

fn leading_column<T: Scalar>(row: &Row<T>) -> usize
    ensures { (j : ℕ) → LeadsAt j row.now → result ≡ j }
{
    for column in 0..row.len() {
        if is_nonzero(row.at(column)) {
            return column;
        }
    }
    row.len()
}

/// The dual forms of the base, each with its value at its own vector.
pub(crate) fn dual_coordinates<T: Scalar>(
    alloc: Global,
    width: usize,
    base: &[Row<T>],
    columns: &[usize],
) -> Result<Vec<Coordinate<T>>, Num>
    requires widths { Each (HasWidth width) base.now }
    requires leading { AreLeading columns.now base.now }
    ensures { MatchResult result (λ v. AreDualEach width columns.now base.now v.items) (λ e. e ≡ Num.Range → SomeNumberLarge T.HALF (IsDualNumber width base.now)) }
{
    let mut list = match Vec::with_capacity(alloc, base.len()) {
        Ok(list) => list,
        Err(_) => return Err(Num::NoMemory),
    };
    for place in 0..base.len() {
        match dual_coordinate(alloc, width, base, columns, place) {
            Ok(coordinate) => list.push_reserved(coordinate),
            Err(refusal) => return Err(refusal),
        }
    }
    Ok(list)
}

fn dual_coordinate<T: Scalar>(
    alloc: Global,
    width: usize,
    base: &[Row<T>],
    columns: &[usize],
    place: usize,
) -> Result<Coordinate<T>, Num>
    requires widths { Each (HasWidth width) base.now }
    requires leading { AreLeading columns.now base.now }
    requires inside { place < length base.now }
    ensures { MatchResult result (IsDualAt width columns.now base.now place) (λ e. e ≡ Num.Range → SomeNumberLarge T.HALF (IsDualNumber width base.now)) }
{
    let column = columns[place];
    let sign = sign_of(base[place].at(column));
    let form = match from_bottom(alloc, width, base, columns, place, column, sign) {
        Ok(form) => form,
        Err(refusal) => return Err(refusal),
    };
    match form.dot(&base[place]) {
        Some(divisor) => Ok(Coordinate { form, divisor }),
        None => Err(Num::Range),
    }
}

// 1, or -1 for a negative number.
fn sign_of<T: Scalar>(value: T) -> T
    requires { T.integer value ≢ pos 0 }
    ensures { ((T.integer result ≡ pos 1) ⊎ (T.integer result ≡ negsuc 0)) × (pos 0 <ℤ (T.integer result *ℤ T.integer value)) }
{
    if is_negative(value) {
        T::of_i64(-1)
    } else {
        T::of_i64(1)
    }
}

/// The form that begins with this sign at the column, cleared of the vectors before this place,
/// which lead before the column.
pub(crate) fn from_bottom<T: Scalar>(
    alloc: Global,
    width: usize,
    base: &[Row<T>],
    columns: &[usize],
    end: usize,
    column: usize,
    sign: T,
) -> Result<Row<T>, Num>
    requires widths { Each (HasWidth width) base.now }
    requires leading { AreLeading columns.now base.now }
    requires inside { column < width }
    requires end { end ≤ length base.now }
    requires before { (i : ℕ) → i < end → column_at columns.now i < column }
    requires sign { (T.integer sign ≡ pos 1) ⊎ (T.integer sign ≡ negsuc 0) }
    ensures { MatchResult result (IsFromBottom width columns.now base.now column (T.integer sign) 0 end) (λ e. e ≡ Num.Range → SomeNumberLarge T.HALF (IsBottomNumber width columns.now base.now column (T.integer sign) end)) }
{
    let mut form = match start(alloc, width, column, sign) {
        Ok(form) => form,
        Err(refusal) => return Err(refusal),
    };
    let mut first = end;
    'vectors: while first > 0 {
        first -= 1;
        form = match cleared_at(alloc, width, base, columns, first, &form) {
            Ok(form) => form,
            Err(refusal) => return Err(refusal),
        };
    }
    Ok(form)
}

// The unit form of the column, or its opposite.
fn start<T: Scalar>(alloc: Global, width: usize, column: usize, sign: T) -> Result<Row<T>, Num>
    requires { (T.integer sign ≡ pos 1) ⊎ (T.integer sign ≡ negsuc 0) }
    ensures { MatchResult result (λ f. f ≡ scaled (T.integer sign) (unit_at width column)) (λ e. ¬ (e ≡ Num.Range)) }
{
    match unit(alloc, width, column) {
        Ok(unit) => times(alloc, sign, &unit),
        Err(refusal) => Err(Num::from(refusal)),
    }
}

// The form cleared of one vector more.
fn cleared_at<T: Scalar>(
    alloc: Global,
    width: usize,
    base: &[Row<T>],
    columns: &[usize],
    place: usize,
    form: &Row<T>,
) -> Result<Row<T>, Num>
    requires widths { Each (HasWidth width) base.now }
    requires leading { AreLeading columns.now base.now }
    requires inside { place < length base.now }
    requires form { HasWidth width form.now }
    requires zero { entry form.now (column_at columns.now place) ≡ pos 0 }
    ensures { MatchResult result (IsClearedOf width (column_at columns.now place) (vector_at base.now place) form.now) (λ e. e ≡ Num.Range → SomeNumberLarge T.HALF (IsBottomStepNumber (column_at columns.now place) (vector_at base.now place) form.now)) }
{
    cleared(alloc, width, form, &base[place], columns[place])
}

// A multiple of the form with another entry at the column, so that it is 0 at the vector, which
// leads there. The factors are the least ones.
fn cleared<T: Scalar>(
    alloc: Global,
    width: usize,
    form: &Row<T>,
    vector: &Row<T>,
    column: usize,
) -> Result<Row<T>, Num>
    requires form { HasWidth width form.now }
    requires vector { HasWidth width vector.now }
    requires inside { column < width }
    requires nonzero { entry vector.now column ≢ pos 0 }
    requires zero { entry form.now column ≡ pos 0 }
    ensures { MatchResult result (IsClearedOf width column vector.now form.now) (λ e. e ≡ Num.Range → SomeNumberLarge T.HALF (IsBottomStepNumber column vector.now form.now)) }
{
    let pivot = vector.at(column);
    let value = match form.dot(vector) {
        Some(value) => value,
        None => return Err(Num::Range),
    };
    let factors = match least_factors(value, pivot) {
        Some(factors) => factors,
        None => return Err(Num::Range),
    };
    match unit(alloc, width, column) {
        Ok(unit) => Row::combine(alloc, factors.form, form, factors.unit, &unit),
        Err(refusal) => Err(Num::from(refusal)),
    }
}

// How often the form is taken, and how often the unit form.
#[derive(Drop)]
struct Factors<T: Scalar> {
    form: T,
    unit: T,
}

// The least factors that make a sum of the value and the pivot 0.
fn least_factors<T: Scalar>(value: T, pivot: T) -> Option<Factors<T>>
    requires { T.integer pivot ≢ pos 0 }
    ensures { MatchOption result ((T.HALF <ℤ pos (unsigned_abs (T.integer value))) ⊎ (T.HALF <ℤ pos (unsigned_abs (T.integer pivot)))) (λ f. AreLeastFactors (T.integer value) (T.integer pivot) (T.integer f.form) (T.integer f.unit) × (unsigned_abs (T.integer f.form) ≤ unsigned_abs (T.integer pivot)) × (unsigned_abs (T.integer f.unit) ≤ unsigned_abs (T.integer value))) }
{
    let common = match value.gcd(pivot) {
        Some(common) => common,
        None => return None,
    };
    let sign = sign_of(pivot);
    let form = match signed_quotient(pivot, common, sign) {
        Some(form) => form,
        None => return None,
    };
    let taken = match signed_quotient(value, common, sign) {
        Some(taken) => taken,
        None => return None,
    };
    match T::of_i64(0).try_sub(taken) {
        Some(unit) => Some(Factors { form, unit }),
        None => None,
    }
}

// The quotient by a number that divides the value, times the sign.
fn signed_quotient<T: Scalar>(value: T, by: T, sign: T) -> Option<T>
    requires positive { pos 0 <ℤ T.integer by }
    requires divides { IsMultipleOf (T.integer by) (T.integer value) }
    requires sign { (T.integer sign ≡ pos 1) ⊎ (T.integer sign ≡ negsuc 0) }
    ensures { MatchOption result (T.HALF <ℤ pos (unsigned_abs (T.integer value))) (λ q. T.integer by *ℤ T.integer q ≡ T.integer sign *ℤ T.integer value) }
{
    sign.try_mul(floor(value, by))
}
