// The constraints of the group of a base in echelon form.
ghost use Rattle.std.specs.Prelude.{◌≡◌, ◌⊎◌, ◌↔◌, ◌+◌, ◌<◌, ◌<ℤ◌, ◌++◌, ◌∷◌, [], ℕ, List, pos, map, length, Contains, IfOk, IsTrue, MatchOption, MatchResult};
ghost use Rattle.std.specs.List.{AllByRecursion as Each};
ghost use Rattle.nz_spec.specs.Vectors.{Vector, HasWidth};
ghost use Rattle.nz_spec.specs.Sums.{IsInGroup};
ghost use Rattle.nz_spec.specs.Order.{Pairwise};
ghost use Rattle.nz_spec.specs.Systems.{Congruence};
ghost use Rattle.nz_spec.specs.Constraints.{MeetsAll, constraint_of};
ghost use Rattle.nz_sweep.specs.Duals.{Coordinate as FormAndDivisor};
ghost use Rattle.nz_sweep.specs.Generating.{AreLeading, IsEchelon};
ghost use Rattle.nz_sweep.specs.Numbers.{SomeNumberLarge, IsConstraintNumber};
ghost use Rattle.nz_sweep.specs.GroupConstraints.{congruence_of, AreAboveOne, AreGroupConstraints, IsBetween, AreEquationsBefore};

use crate::bottom::{dual_coordinates, from_bottom, leading_columns};
use crate::coordinates::Coordinate;
use nz_vec::{Constraint, Constraints, NoMemory, Num, Row, Scalar};
use std::alloc::Global;

/// The equations and then the congruences of the base.
pub(crate) fn group_constraints<T: Scalar>(
    alloc: Global,
    width: usize,
    base: &[Row<T>],
) -> Result<Constraints<T>, Num>
    requires widths { Each (HasWidth width) base.now }
    requires echelon { IsEchelon base.now }
    ensures forms { MatchResult result (AreGroupConstraints width base.now) (λ e. e ≡ Num.Range → SomeNumberLarge T.HALF (IsConstraintNumber width base.now)) }
    ensures members { IfOk result (λ c. (x : Vector) → HasWidth width x → MeetsAll c x ↔ IsInGroup width base.now x) }
{
    let columns = match leading_columns(alloc, base) {
        Ok(columns) => columns,
        Err(refusal) => return Err(Num::from(refusal)),
    };
    let equations = match equations(alloc, width, base, columns.as_slice()) {
        Ok(equations) => equations,
        Err(refusal) => return Err(refusal),
    };
    let coordinates = match dual_coordinates(alloc, width, base, columns.as_slice()) {
        Ok(coordinates) => coordinates,
        Err(refusal) => return Err(refusal),
    };
    match with_congruences(equations, coordinates) {
        Ok(all) => Ok(all),
        Err(refusal) => Err(Num::from(refusal)),
    }
}

// The equations, one for each column at which no vector leads.
fn equations<T: Scalar>(
    alloc: Global,
    width: usize,
    base: &[Row<T>],
    columns: &[usize],
) -> Result<Constraints<T>, Num>
    requires widths { Each (HasWidth width) base.now }
    requires leading { AreLeading columns.now base.now }
    ensures { MatchResult result (AreEquationsBefore width columns.now base.now width) (λ e. e ≡ Num.Range → SomeNumberLarge T.HALF (IsConstraintNumber width base.now)) }
{
    let mut list = Constraints::new(alloc);
    for column in 0..width {
        list = match with_equation(alloc, width, base, columns, column, list) {
            Ok(list) => list,
            Err(refusal) => return Err(refusal),
        };
    }
    Ok(list)
}

// Appends the equation of one column more.
fn with_equation<T: Scalar>(
    alloc: Global,
    width: usize,
    base: &[Row<T>],
    columns: &[usize],
    column: usize,
    mut list: Constraints<T>,
) -> Result<Constraints<T>, Num>
    requires widths { Each (HasWidth width) base.now }
    requires leading { AreLeading columns.now base.now }
    requires inside { column < width }
    requires so_far { AreEquationsBefore width columns.now base.now column list }
    ensures { MatchResult result (AreEquationsBefore width columns.now base.now (column + 1)) (λ e. e ≡ Num.Range → SomeNumberLarge T.HALF (IsConstraintNumber width base.now)) }
{
    let before = match leading_before(columns, column) {
        Some(before) => before,
        None => return Ok(list),
    };
    let form = match from_bottom(alloc, width, base, columns, before, column, T::of_i64(1)) {
        Ok(form) => form,
        Err(refusal) => return Err(refusal),
    };
    match list.push(Constraint::Zero(form)) {
        Ok(()) => Ok(list),
        Err(refusal) => Err(Num::from(refusal)),
    }
}

// How many of the increasing columns stand before this one. None where it is one of them.
fn leading_before(columns: &[usize], column: usize) -> Option<usize>
    requires { Pairwise ◌<◌ columns.now }
    ensures { MatchOption result (Contains columns.now column) (IsBetween columns.now column) }
{
    for place in 0..columns.len() {
        if columns[place] == column {
            return None;
        }
        if column < columns[place] {
            return Some(place);
        }
    }
    Some(columns.len())
}

// Appends that each form is to be a multiple of its divisor, where that is above 1.
fn with_congruences<T: Scalar>(
    list: Constraints<T>,
    coordinates: Vec<Coordinate<T>>,
) -> Result<Constraints<T>, NoMemory>
    ensures { IfOk result (λ c. Each (λ (k : FormAndDivisor). pos 0 <ℤ k.divisor) coordinates.items → (congruences : List Congruence) × AreAboveOne coordinates.items congruences × (c ≡ list ++ map constraint_of congruences)) }
{
    let mut list = list;
    for coordinate in coordinates {
        list = match with_congruence(list, coordinate) {
            Ok(list) => list,
            Err(refusal) => return Err(refusal),
        };
    }
    Ok(list)
}

fn with_congruence<T: Scalar>(
    mut list: Constraints<T>,
    coordinate: Coordinate<T>,
) -> Result<Constraints<T>, NoMemory>
    ensures { IfOk result (λ c. pos 0 <ℤ coordinate.divisor → ((coordinate.divisor ≡ pos 1) × (c ≡ list)) ⊎ ((pos 1 <ℤ coordinate.divisor) × (c ≡ list ++ (constraint_of (congruence_of coordinate)) ∷ []))) }
{
    let Coordinate { form, divisor } = coordinate;
    if is_one(divisor) {
        return Ok(list);
    }
    match list.push(Constraint::Multiple(form, divisor)) {
        Ok(()) => Ok(list),
        Err(refusal) => Err(refusal),
    }
}

fn is_one<T: Scalar>(value: T) -> bool
    ensures { IsTrue result ↔ (T.integer value ≡ pos 1) }
{
    value == T::of_i64(1)
}
