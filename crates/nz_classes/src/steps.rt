// What the walk reckons once of a simplex.
ghost use Rattle.std.specs.Prelude.{◌≡◌, pos, negsuc, ◌<◌, length, map, unsigned_abs, MatchResult};
ghost use Rattle.std.specs.List.{AllByRecursion as Each, AllZip};
ghost use Rattle.nz_spec.specs.Vectors.{combination, unit_vectors, HasWidth};
ghost use Rattle.nz_linear.specs.DualPairs.{divisor};
ghost use Rattle.nz_linear.specs.Echelon.{unit_at};
ghost use Rattle.nz_classes.specs.Causes.{IsCaused};
ghost use Rattle.nz_classes.specs.Classes.{IsRestOf};
ghost use Rattle.nz_classes.specs.Steps.{HasSumOutside, IsPrepared};
ghost use Rattle.nz_classes.specs.Walks.{paired, IsFullSimplex};

use crate::values::{quotients_of, values_of_all};
use crate::zero::zero;
use nz_vec::{Num, Row, Rows, Scalar, unit};
use std::alloc::Global;

/// A simplex with what each step of the walk needs: the divisors of its forms, the points in the
/// classes of the unit vectors, and the values of the forms at these.
#[derive(Drop)]
pub(crate) struct Steps<'a, T: Scalar> {
    pub(crate) sides: &'a Rows<T>,
    pub(crate) forms: &'a Rows<T>,
    pub(crate) divisors: Row<T>,
    pub(crate) units: Rows<T>,
    pub(crate) values: Rows<T>,
}

/// Reckons the points in the classes of the unit vectors, and the values at these.
pub(crate) fn prepare<'a, T: Scalar>(
    alloc: Global,
    sides: &'a Rows<T>,
    forms: &'a Rows<T>,
    divisors: Row<T>,
) -> Result<Steps<'a, T>, Num>
    requires simplex { IsFullSimplex sides.now forms.now }
    requires divisors { divisors ≡ map divisor (paired forms.now sides.now) }
    ensures { MatchResult result (λ s. (s.sides.now ≡ sides.now) × (s.forms.now ≡ forms.now) × IsPrepared sides.now forms.now s.divisors s.units s.values) (IsCaused (unsigned_abs T.HALF) sides.now forms.now) }
{
    let units = match unit_points(alloc, sides, forms, &divisors) {
        Ok(units) => units,
        Err(refusal) => return Err(refusal),
    };
    let values = match values_of_all(alloc, forms, &units) {
        Ok(values) => values,
        Err(refusal) => return Err(refusal),
    };
    Ok(Steps {
        sides,
        forms,
        divisors,
        units,
        values,
    })
}

/// The points in the classes of the unit vectors.
fn unit_points<T: Scalar>(
    alloc: Global,
    sides: &Rows<T>,
    forms: &Rows<T>,
    divisors: &Row<T>,
) -> Result<Rows<T>, Num>
    requires simplex { IsFullSimplex sides.now forms.now }
    requires divisors { divisors.now ≡ map divisor (paired forms.now sides.now) }
    ensures { MatchResult result (AllZip (IsRestOf (length sides.now) (paired forms.now sides.now)) (unit_vectors (length sides.now))) (IsCaused (unsigned_abs T.HALF) sides.now forms.now) }
{
    let mut points = Rows::new(alloc);
    for column in 0..sides.len() {
        let point = match unit_point(alloc, sides, forms, divisors, column) {
            Ok(point) => point,
            Err(refusal) => return Err(refusal),
        };
        match points.push(point) {
            Ok(()) => {}
            Err(refusal) => return Err(Num::from(refusal)),
        }
    }
    Ok(points)
}

/// The point in the class of a unit vector: the unit vector less its floor sum.
fn unit_point<T: Scalar>(
    alloc: Global,
    sides: &Rows<T>,
    forms: &Rows<T>,
    divisors: &Row<T>,
    column: usize,
) -> Result<Row<T>, Num>
    requires simplex { IsFullSimplex sides.now forms.now }
    requires divisors { divisors.now ≡ map divisor (paired forms.now sides.now) }
    requires column { column < length sides.now }
    ensures { MatchResult result (IsRestOf (length sides.now) (paired forms.now sides.now) (unit_at (length sides.now) column)) (IsCaused (unsigned_abs T.HALF) sides.now forms.now) }
{
    let floors = match quotients_of(alloc, forms, divisors, column) {
        Ok(floors) => floors,
        Err(refusal) => return Err(Num::from(refusal)),
    };
    let sum = match sum_of_sides(alloc, sides, &floors) {
        Ok(sum) => sum,
        Err(refusal) => return Err(refusal),
    };
    match unit(alloc, sides.len(), column) {
        Ok(unit) => Row::combine(alloc, T::of_i64(1), &unit, T::of_i64(-1), &sum),
        Err(refusal) => Err(Num::from(refusal)),
    }
}

/// The sum of the sides with their factors, from the left.
fn sum_of_sides<T: Scalar>(alloc: Global, sides: &Rows<T>, factors: &Row<T>) -> Result<Row<T>, Num>
    requires one_each { length factors.now ≡ length sides.now }
    requires wide { Each (HasWidth (length sides.now)) sides.now }
    ensures { MatchResult result (λ s. s ≡ combination (length sides.now) factors.now sides.now) (λ e. e ≡ Num.Range → HasSumOutside T.fits (length sides.now) factors.now sides.now) }
{
    let mut sum = match zero(alloc, sides.len()) {
        Ok(zero) => zero,
        Err(refusal) => return Err(Num::from(refusal)),
    };
    for place in 0..sides.len() {
        let one = T::of_i64(1);
        sum = match Row::combine(alloc, one, &sum, factors.at(place), sides.at(place)) {
            Ok(more) => more,
            Err(refusal) => return Err(refusal),
        };
    }
    Ok(sum)
}
