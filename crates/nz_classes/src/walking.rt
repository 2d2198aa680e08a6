ghost use Rattle.std.specs.Prelude.{◌≡◌, ◌⊎◌, ◌<◌, ◌≤◌, ℕ, ℤ, List, [], ◌∷◌, length, map, unsigned_abs, slice_index_or, MatchResult};
ghost use Rattle.std.specs.List.{AllByRecursion as Each};
ghost use Rattle.nz_spec.specs.Vectors.{plus, values_at, HasWidth};
ghost use Rattle.nz_linear.specs.DualPairs.{divisor};
ghost use Rattle.nz_linear.specs.Echelon.{unit_at};
ghost use Rattle.nz_classes.specs.Causes.{IsCaused};
ghost use Rattle.nz_classes.specs.Classes.{HasReducedValues};
ghost use Rattle.nz_classes.specs.Steps.{IsExpanded, IsFull, IsPart, IsPrepared, IsPut, Extends, Reaches};
ghost use Rattle.nz_classes.specs.Walks.{paired, IsFullSimplex, IsRefusal, ListsPoints};

use crate::found::Found;
use crate::neighbours::neighbour;
use crate::steps::{Steps, prepare};
use crate::values::{are_at_most_one, divisors_of};
use crate::zero::zero;
use nz_vec::{Num, Row, Rows, Scalar, Work};
use std::alloc::Global;

/// Lists every whole vector of the half-open parallelepiped of a simplex, the sums of its sides
/// with factors of at least 0 and below 1. `forms` has for each side the form that is positive there
/// and 0 at the others. The classes of vectors that differ by whole sums of the sides are a finite
/// group that the unit vectors generate, and each has one point; the walk goes from 0 along the unit
/// vectors until no new class is met (Bruns and Ichim, "Normaliz: algorithms for affine monoids and
/// rational cones"). Where each form is 1 at its side there is no class but that of 0.
pub fn walk<T: Scalar>(
    alloc: Global,
    simplex: &Rows<T>,
    forms: &Rows<T>,
    limit: u32,
) -> Result<Rows<T>, Work>
    requires { IsFullSimplex simplex.now forms.now }
    ensures { MatchResult result (ListsPoints limit simplex.now) (IsRefusal (unsigned_abs T.HALF) limit simplex.now forms.now) }
{
    let divisors = match divisors_of(alloc, simplex, forms) {
        Ok(divisors) => divisors,
        Err(refusal) => return Err(work_of(refusal)),
    };
    if are_at_most_one(&divisors) {
        origin_alone(alloc, simplex.len(), limit)
    } else {
        walk_classes(alloc, simplex, forms, divisors, limit)
    }
}

/// The zero vector as a list, as long as the limit is no less.
fn origin_alone<T: Scalar>(alloc: Global, width: usize, limit: u32) -> Result<Rows<T>, Work>
    ensures { MatchResult result (λ rows. (rows ≡ unit_at width width ∷ []) × (1 ≤ limit)) (λ e. (e ≡ Work.NoMemory) ⊎ ((e ≡ Work.TooMany) × (limit ≡ 0))) }
{
    if limit == 0 {
        return Err(Work::TooMany);
    }
    let zero = match zero(alloc, width) {
        Ok(zero) => zero,
        Err(_) => return Err(Work::NoMemory),
    };
    let mut rows = Rows::new(alloc);
    match rows.push(zero) {
        Ok(()) => Ok(rows),
        Err(_) => Err(Work::NoMemory),
    }
}

/// The walk from 0, with the divisors of the forms.
fn walk_classes<T: Scalar>(
    alloc: Global,
    simplex: &Rows<T>,
    forms: &Rows<T>,
    divisors: Row<T>,
    limit: u32,
) -> Result<Rows<T>, Work>
    requires simplex { IsFullSimplex simplex.now forms.now }
    requires divisors { divisors ≡ map divisor (paired forms.now simplex.now) }
    ensures { MatchResult result (ListsPoints limit simplex.now) (IsRefusal (unsigned_abs T.HALF) limit simplex.now forms.now) }
{
    let steps = match prepare(alloc, simplex, forms, divisors) {
        Ok(steps) => steps,
        Err(refusal) => return Err(work_of(refusal)),
    };
    let mut found = match begin(alloc, simplex.len(), limit) {
        Ok(found) => found,
        Err(refusal) => return Err(refusal),
    };
    match close(alloc, &steps, &mut found, limit) {
        Ok(()) => {}
        Err(refusal) => return Err(refusal),
    }
    match found.in_order(alloc) {
        Ok(points) => Ok(points),
        Err(refusal) => Err(Work::from(refusal)),
    }
}

/// The list of 0 alone.
fn begin<T: Scalar>(alloc: Global, width: usize, limit: u32) -> Result<Found<T>, Work>
    ensures { MatchResult result (λ found. IsPut [] (unit_at width width) found × (length found ≤ limit)) (λ e. (new : List (List ℤ)) × IsFull limit [] (unit_at width width) new e) }
{
    let mut found = Found::new(alloc);
    let zero = match zero(alloc, width) {
        Ok(zero) => zero,
        Err(refusal) => return Err(Work::from(refusal)),
    };
    match note(&mut found, zero, limit) {
        Ok(()) => Ok(found),
        Err(refusal) => Err(refusal),
    }
}

/// Goes on until no unit vector leads from a vector of the list into a new class. The list itself,
/// place by place, says from which vectors none has been tried yet.
fn close<T: Scalar>(
    alloc: Global,
    steps: &Steps<T>,
    found: &mut Found<T>,
    limit: u32,
) -> Result<(), Work>
    requires prepared { IsPrepared steps.now.sides.now steps.now.forms.now steps.now.divisors steps.now.units steps.now.values }
    requires part { IsPart (length steps.now.sides.now) (paired steps.now.forms.now steps.now.sides.now) limit found.old }
    ensures { MatchResult result (λ _. IsPart (length steps.now.sides.now) (paired steps.now.forms.now steps.now.sides.now) limit found.new × Extends found.old found.new × Each (IsExpanded (length steps.now.sides.now) (paired steps.now.forms.now steps.now.sides.now) found.new) found.new) (IsRefusal (unsigned_abs T.HALF) limit steps.now.sides.now steps.now.forms.now) }
{
    let mut place = 0;
    while place < found.len() {
        match expand(alloc, steps, found, place, limit) {
            Ok(()) => {}
            Err(refusal) => return Err(refusal),
        }
        place += 1;
    }
    Ok(())
}

/// Finds the classes to which the unit vectors lead from the vector at a place.
fn expand<T: Scalar>(
    alloc: Global,
    steps: &Steps<T>,
    found: &mut Found<T>,
    place: usize,
    limit: u32,
) -> Result<(), Work>
    requires prepared { IsPrepared steps.now.sides.now steps.now.forms.now steps.now.divisors steps.now.units steps.now.values }
    requires place { place < length found.old }
    requires part { IsPart (length steps.now.sides.now) (paired steps.now.forms.now steps.now.sides.now) limit found.old }
    ensures { MatchResult result (λ _. IsPart (length steps.now.sides.now) (paired steps.now.forms.now steps.now.sides.now) limit found.new × Extends found.old found.new × IsExpanded (length steps.now.sides.now) (paired steps.now.forms.now steps.now.sides.now) found.new (slice_index_or found.old place [])) (IsRefusal (unsigned_abs T.HALF) limit steps.now.sides.now steps.now.forms.now) }
{
    let point = match found.row(alloc, place) {
        Ok(point) => point,
        Err(refusal) => return Err(Work::from(refusal)),
    };
    let values = match steps.forms.values_at(&point) {
        Ok(values) => values,
        Err(refusal) => return Err(work_of(refusal)),
    };
    spread(alloc, steps, found, &point, &values, limit)
}

/// Finds the classes to which the unit vectors lead from a point at which the forms have these values.
fn spread<T: Scalar>(
    alloc: Global,
    steps: &Steps<T>,
    found: &mut Found<T>,
    point: &Row<T>,
    values: &Row<T>,
    limit: u32,
) -> Result<(), Work>
    requires prepared { IsPrepared steps.now.sides.now steps.now.forms.now steps.now.divisors steps.now.units steps.now.values }
    requires width { HasWidth (length steps.now.sides.now) point.now }
    requires reduced { HasReducedValues (paired steps.now.forms.now steps.now.sides.now) point.now }
    requires values { values.now ≡ values_at steps.now.forms.now point.now }
    requires part { IsPart (length steps.now.sides.now) (paired steps.now.forms.now steps.now.sides.now) limit found.old }
    ensures { MatchResult result (λ _. IsPart (length steps.now.sides.now) (paired steps.now.forms.now steps.now.sides.now) limit found.new × Extends found.old found.new × IsExpanded (length steps.now.sides.now) (paired steps.now.forms.now steps.now.sides.now) found.new point.now) (IsRefusal (unsigned_abs T.HALF) limit steps.now.sides.now steps.now.forms.now) }
{
    for column in 0..steps.sides.len() {
        match step(alloc, steps, found, point, values, column, limit) {
            Ok(()) => {}
            Err(refusal) => return Err(refusal),
        }
    }
    Ok(())
}

/// Finds the class to which one unit vector leads.
fn step<T: Scalar>(
    alloc: Global,
    steps: &Steps<T>,
    found: &mut Found<T>,
    point: &Row<T>,
    values: &Row<T>,
    column: usize,
    limit: u32,
) -> Result<(), Work>
    requires prepared { IsPrepared steps.now.sides.now steps.now.forms.now steps.now.divisors steps.now.units steps.now.values }
    requires width { HasWidth (length steps.now.sides.now) point.now }
    requires reduced { HasReducedValues (paired steps.now.forms.now steps.now.sides.now) point.now }
    requires values { values.now ≡ values_at steps.now.forms.now point.now }
    requires column { column < length steps.now.sides.now }
    requires part { IsPart (length steps.now.sides.now) (paired steps.now.forms.now steps.now.sides.now) limit found.old }
    ensures { MatchResult result (λ _. IsPart (length steps.now.sides.now) (paired steps.now.forms.now steps.now.sides.now) limit found.new × Extends found.old found.new × Reaches (paired steps.now.forms.now steps.now.sides.now) found.new (plus point.now (unit_at (length steps.now.sides.now) column))) (IsRefusal (unsigned_abs T.HALF) limit steps.now.sides.now steps.now.forms.now) }
{
    let next = match neighbour(alloc, steps, point, values, column) {
        Ok(next) => next,
        Err(refusal) => return Err(work_of(refusal)),
    };
    note(found, next, limit)
}

/// Puts a vector into the list, as long as that has no more than `limit`.
fn note<T: Scalar>(found: &mut Found<T>, vector: Row<T>, limit: u32) -> Result<(), Work>
    ensures { MatchResult result (λ _. IsPut found.old vector found.new × (length found.new ≤ limit)) (IsFull limit found.old vector found.new) }
{
    match found.put(vector) {
        Ok(()) => {}
        Err(refusal) => return Err(Work::from(refusal)),
    }
    if found.len() > limit as usize {
        Err(Work::TooMany)
    } else {
        Ok(())
    }
}

/// The refusal of one reckoning as that of the walk, which tells no stages.
fn work_of(refusal: Num) -> Work
    ensures { (bound limit : ℕ) (sides forms : List (List ℤ)) → IsCaused bound sides forms refusal → IsRefusal bound limit sides forms result }
{
    match refusal {
        Num::Range => Work::Range { told: 0 },
        Num::NoMemory => Work::NoMemory,
    }
}
