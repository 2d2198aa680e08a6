// Whether a vector is inside a lattice: its coordinates are whole, and it is their combination.
ghost use Rattle.std.specs.Prelude.{◌≡◌, ◌↔◌, ◌⊎◌, ℕ, ◌<◌, ◌<ℤ◌, ◌*ℤ◌, pos, length, Contains, IsTrue, MatchBool, MatchOption, MatchResult};
ghost use Rattle.std.specs.List.{AllByRecursion as Each, AllZip};
ghost use Rattle.nz_spec.specs.Vectors.{combination, dot, HasWidth, IsMultipleOf};
ghost use Rattle.nz_range.specs.Measures.{pair_measure};
ghost use Rattle.nz_sweep.specs.Duals.{coordinate_at, HasFraction, IsWholeAt};
ghost use Rattle.nz_sweep.specs.Numbers.{SomeNumberLarge, IsMeasureAt, IsEntryOf};

use crate::basis::column;
use crate::coordinates::Coordinate;
use crate::floors::floor;
use crate::terms::has_value;
use nz_vec::{Num, Row, Scalar};
use std::alloc::Global;

/// The coordinates of a vector. None where one of them is not whole.
pub(crate) fn whole_coordinates<T: Scalar>(
    alloc: Global,
    width: usize,
    coordinates: &[Coordinate<T>],
    x: &Row<T>,
) -> Result<Option<Row<T>>, Num>
    requires x { length x.now ≡ width }
    requires widths { (i : ℕ) → i < length coordinates.now → HasWidth width (coordinate_at coordinates.now i).form }
    requires positive { (i : ℕ) → i < length coordinates.now → pos 0 <ℤ (coordinate_at coordinates.now i).divisor }
    ensures { MatchResult result (λ o. MatchOption o (HasFraction x.now coordinates.now) (λ c. AllZip (IsWholeAt x.now) coordinates.now c)) (λ e. e ≡ Num.Range → SomeNumberLarge T.HALF (IsMeasureAt x.now coordinates.now)) }
{
    let mut entries = match Vec::with_capacity(alloc, coordinates.len()) {
        Ok(entries) => entries,
        Err(_) => return Err(Num::NoMemory),
    };
    for place in 0..coordinates.len() {
        let whole = match whole_coordinate(&coordinates[place], x) {
            Ok(whole) => whole,
            Err(refusal) => return Err(refusal),
        };
        match whole {
            Some(entry) => entries.push_reserved(entry),
            None => return Ok(None),
        }
    }
    Ok(Some(Row::from_vec(entries)))
}

fn whole_coordinate<T: Scalar>(coordinate: &Coordinate<T>, x: &Row<T>) -> Result<Option<T>, Num>
    requires width { length coordinate.now.form ≡ length x.now }
    requires positive { pos 0 <ℤ coordinate.now.divisor }
    ensures { MatchResult result (λ o. MatchOption o (¬ IsMultipleOf coordinate.now.divisor (dot coordinate.now.form x.now)) (λ q. IsWholeAt x.now coordinate.now (T.integer q))) (λ e. e ≡ Num.Range → T.HALF <ℤ pos (pair_measure coordinate.now.form x.now)) }
{
    let value = match coordinate.form.dot(x) {
        Some(value) => value,
        None => return Err(Num::Range),
    };
    let quotient = floor(value, coordinate.divisor);
    let product = match quotient.try_mul(coordinate.divisor) {
        Some(product) => product,
        None => return Ok(None),
    };
    if is_same(product, value) {
        return Ok(Some(quotient));
    }
    Ok(None)
}

/// Whether two values stand for one number.
pub(crate) fn is_same<T: Scalar>(a: T, b: T) -> bool
    ensures { IsTrue result ↔ (T.integer a ≡ T.integer b) }
{
    a == b
}

/// Whether a vector is the combination of a base with these factors.
pub(crate) fn is_combination<T: Scalar>(
    alloc: Global,
    width: usize,
    base: &[Row<T>],
    factors: &Row<T>,
    x: &Row<T>,
) -> Result<bool, Num>
    requires factors { length factors.now ≡ length base.now }
    requires x { length x.now ≡ width }
    requires widths { Each (HasWidth width) base.now }
    ensures { MatchResult result (λ b. MatchBool b (combination width factors.now base.now ≡ x.now) (¬ (combination width factors.now base.now ≡ x.now))) (λ e. e ≡ Num.Range → SomeNumberLarge T.HALF (λ n. Contains x.now n ⊎ Contains factors.now n ⊎ IsEntryOf base.now n)) }
{
    for place in 0..width {
        let column = match column(alloc, base, place, width) {
            Ok(column) => column,
            Err(refusal) => return Err(Num::from(refusal)),
        };
        match has_value(alloc, factors, &column, x.at(place)) {
            Ok(true) => {}
            Ok(false) => return Ok(false),
            Err(refusal) => return Err(refusal),
        }
    }
    Ok(true)
}
