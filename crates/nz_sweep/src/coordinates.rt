// The coordinates of a base, each as a form and a divisor in lowest terms.
ghost use Rattle.std.specs.Prelude.{◌≡◌, ◌<ℤ◌, ◌∷◌, pos, map, IfOk, MatchOption, MatchResult};
ghost use Rattle.std.specs.List.{AllByRecursion as Each};
ghost use Rattle.nz_spec.specs.Vectors.{scaled, unit_vectors, IsMultipleOf};
ghost use Rattle.nz_scalar.specs.Division.{HasGcd};
ghost use Rattle.nz_sweep.specs.Duals.{unit_coordinate, IsLowered};
ghost use Rattle.nz_sweep.specs.Rounds.{IsInLowestTerms};

use crate::floors::floor;
use nz_vec::{NoMemory, Num, Row, Scalar, units};
use std::alloc::Global;
use std::marker::Model;

/// A form and a divisor: at a vector of the lattice the coordinate is the value divided by it.
#[derive(Drop)]
pub(crate) struct Coordinate<T: Scalar> {
    pub(crate) form: Row<T>,
    pub(crate) divisor: T,
}

impl<T: Scalar> Model for Coordinate<T> {
    ghost use Rattle.nz_sweep.specs.Duals.{Coordinate as FormAndDivisor};

    ghost Value = { FormAndDivisor };

    ghost view = { λ c. record { form = c.form; divisor = T.integer c.divisor } };
}

/// The coordinates of the unit vectors.
pub(crate) fn unit_coordinates<T: Scalar>(
    alloc: Global,
    width: usize,
) -> Result<Vec<Coordinate<T>>, NoMemory>
    ensures { IfOk result (λ v. v.items ≡ map unit_coordinate (unit_vectors width)) }
{
    let forms = match units(alloc, width) {
        Ok(forms) => forms,
        Err(refusal) => return Err(refusal),
    };
    let mut list = Vec::new(alloc);
    for form in forms {
        match list.push(unit(form)) {
            Ok(()) => {}
            Err(_) => return Err(NoMemory),
        }
    }
    Ok(list)
}

fn unit<T: Scalar>(form: Row<T>) -> Coordinate<T>
    ensures { result ≡ unit_coordinate form }
{
    Coordinate {
        form,
        divisor: T::of_i64(1),
    }
}

/// Equal coordinates.
pub(crate) fn copies<T: Scalar>(
    alloc: Global,
    list: &[Coordinate<T>],
) -> Result<Vec<Coordinate<T>>, NoMemory>
    ensures { IfOk result (λ v. v.items ≡ list.now) }
{
    let mut copies = match Vec::with_capacity(alloc, list.len()) {
        Ok(copies) => copies,
        Err(_) => return Err(NoMemory),
    };
    for place in 0..list.len() {
        match copied(&list[place]) {
            Ok(copy) => copies.push_reserved(copy),
            Err(refusal) => return Err(refusal),
        }
    }
    Ok(copies)
}

/// An equal coordinate.
pub(crate) fn copied<T: Scalar>(coordinate: &Coordinate<T>) -> Result<Coordinate<T>, NoMemory>
    ensures { IfOk result (λ c. c ≡ coordinate.now) }
{
    match coordinate.form.try_copy() {
        Ok(form) => Ok(Coordinate {
            form,
            divisor: coordinate.divisor,
        }),
        Err(refusal) => Err(refusal),
    }
}

/// The form and the divisor in lowest terms.
pub(crate) fn lowest<T: Scalar>(
    alloc: Global,
    form: &Row<T>,
    divisor: T,
) -> Result<Coordinate<T>, Num>
    requires { pos 0 <ℤ T.integer divisor }
    ensures lowered { IfOk result (IsLowered form.now (T.integer divisor)) }
    ensures lowest { MatchResult result (IsInLowestTerms form.now (T.integer divisor)) (λ e. e ≡ Num.Range → T.HALF <ℤ T.integer divisor) }
{
    let common = match common_divisor(form, divisor) {
        Some(common) => common,
        None => return Err(Num::Range),
    };
    let divisor = floor(divisor, common);
    match divided(alloc, form, common) {
        Ok(form) => Ok(Coordinate { form, divisor }),
        Err(refusal) => Err(Num::from(refusal)),
    }
}

// The greatest common divisor of the divisor and the entries. The divisor comes first, since what
// divides it is no larger, while that of two entries can be no value of the type.
fn common_divisor<T: Scalar>(form: &Row<T>, divisor: T) -> Option<T>
    requires { pos 0 <ℤ T.integer divisor }
    ensures { MatchOption result (T.HALF <ℤ T.integer divisor) (λ g. (pos 0 <ℤ T.integer g) × HasGcd (T.integer divisor ∷ form.now) (T.integer g)) }
{
    let mut common = divisor;
    for place in 0..form.len() {
        common = match common.gcd(form.at(place)) {
            Some(common) => common,
            None => return None,
        };
    }
    Some(common)
}

// The form divided by a number that divides its entries.
fn divided<T: Scalar>(alloc: Global, form: &Row<T>, by: T) -> Result<Row<T>, NoMemory>
    requires positive { pos 0 <ℤ T.integer by }
    requires divides { Each (IsMultipleOf (T.integer by)) form.now }
    ensures { IfOk result (λ r. scaled (T.integer by) r ≡ form.now) }
{
    let mut entries = match Vec::with_capacity(alloc, form.len()) {
        Ok(entries) => entries,
        Err(_) => return Err(NoMemory),
    };
    for place in 0..form.len() {
        entries.push_reserved(floor(form.at(place), by));
    }
    Ok(Row::from_vec(entries))
}
