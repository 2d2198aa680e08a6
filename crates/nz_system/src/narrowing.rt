//! A system over a smaller integer type.
ghost use Rattle.std.specs.Prelude.{◌≡◌, IfOk, IfErr};
ghost use Rattle.nz_vec.specs.Conditions.{condition_of};
ghost use Rattle.nz_system.specs.Narrowing.{HasEntryOutside, SomeEntryOutside, HasConditionOutside, SomeConditionOutside, SomeGivenOutside, IsFormOutside, HasNumberOutside, AreRulesOf, AreListsOf};
ghost use Rattle.nz_spec.specs.Constraints.{Multiple};

use crate::system::{System, SystemOver};
use nz_vec::{Constraint, Constraints, Num, Row, Rows, Scalar};
use std::alloc::Global;

/// The same system over another integer type. Range comes only where an entry or a modulus is no value
/// of that type.
pub fn narrow_system<T: Scalar>(alloc: Global, system: &System) -> Result<SystemOver<T>, Num>
    ensures same { IfOk result (λ s. s ≡ system.now) }
    ensures cause { IfErr result (λ e. e ≡ Num.Range → HasNumberOutside T.fits system.now.system) }
{
    let rules = match narrow_rules(alloc, system) {
        Ok(rules) => rules,
        Err(refusal) => return Err(refusal),
    };
    let lists = match narrow_lists(alloc, system) {
        Ok(lists) => lists,
        Err(refusal) => return Err(refusal),
    };
    let grading = match narrow_form(alloc, &system.grading) {
        Ok(grading) => grading,
        Err(refusal) => return Err(refusal),
    };
    Ok(SystemOver {
        width: system.width,
        level: system.level,
        eq: rules.eq,
        cg: rules.cg,
        ge: rules.ge,
        gens: lists.gens,
        lat: lists.lat,
        grading,
        asked: lists.asked,
        goals: system.goals,
        mode: system.mode,
    })
}

// What members have to meet.
#[derive(Drop)]
struct Rules<T: Scalar> {
    eq: Rows<T>,
    cg: Constraints<T>,
    ge: Rows<T>,
}

fn narrow_rules<T: Scalar>(alloc: Global, system: &System) -> Result<Rules<T>, Num>
    ensures same { IfOk result (λ r. AreRulesOf system.now.system r.eq r.cg r.ge) }
    ensures cause { IfErr result (λ e. e ≡ Num.Range → HasNumberOutside T.fits system.now.system) }
{
    let eq = match narrow_rows(alloc, &system.eq) {
        Ok(eq) => eq,
        Err(refusal) => return Err(refusal),
    };
    let cg = match narrow_constraints(alloc, &system.cg) {
        Ok(cg) => cg,
        Err(refusal) => return Err(refusal),
    };
    match narrow_rows(alloc, &system.ge) {
        Ok(ge) => Ok(Rules { eq, cg, ge }),
        Err(refusal) => Err(refusal),
    }
}

// Vectors that the system has where they are given.
#[derive(Drop)]
struct Lists<T: Scalar> {
    gens: Option<Rows<T>>,
    lat: Option<Rows<T>>,
    asked: Option<Rows<T>>,
}

fn narrow_lists<T: Scalar>(alloc: Global, system: &System) -> Result<Lists<T>, Num>
    ensures same { IfOk result (λ l. AreListsOf system.now.system l.gens l.lat l.asked) }
    ensures cause { IfErr result (λ e. e ≡ Num.Range → HasNumberOutside T.fits system.now.system) }
{
    let gens = match narrow_given(alloc, &system.gens) {
        Ok(gens) => gens,
        Err(refusal) => return Err(refusal),
    };
    let lat = match narrow_given(alloc, &system.lat) {
        Ok(lat) => lat,
        Err(refusal) => return Err(refusal),
    };
    match narrow_given(alloc, &system.asked) {
        Ok(asked) => Ok(Lists { gens, lat, asked }),
        Err(refusal) => Err(refusal),
    }
}

fn narrow_given<T: Scalar>(
    alloc: Global,
    given: &Option<Rows<i128>>,
) -> Result<Option<Rows<T>>, Num>
    ensures same { IfOk result (λ o. o ≡ given.now) }
    ensures cause { IfErr result (λ e. e ≡ Num.Range → SomeGivenOutside T.fits given.now) }
{
    let list = match given {
        Some(list) => list,
        None => return Ok(None),
    };
    match narrow_rows(alloc, list) {
        Ok(list) => Ok(Some(list)),
        Err(refusal) => Err(refusal),
    }
}

fn narrow_form<T: Scalar>(alloc: Global, given: &Option<Row<i128>>) -> Result<Option<Row<T>>, Num>
    ensures same { IfOk result (λ o. o ≡ given.now) }
    ensures cause { IfErr result (λ e. e ≡ Num.Range → IsFormOutside T.fits given.now) }
{
    let form = match given {
        Some(form) => form,
        None => return Ok(None),
    };
    match narrow_row(alloc, form) {
        Ok(form) => Ok(Some(form)),
        Err(refusal) => Err(refusal),
    }
}

fn narrow_constraints<T: Scalar>(
    alloc: Global,
    constraints: &Constraints<i128>,
) -> Result<Constraints<T>, Num>
    ensures same { IfOk result (λ c. c ≡ constraints.now) }
    ensures cause { IfErr result (λ e. e ≡ Num.Range → SomeConditionOutside T.fits constraints.now) }
{
    let mut list = Constraints::new(alloc);
    for place in 0..constraints.len() {
        let constraint = match narrow_constraint(alloc, constraints.at(place)) {
            Ok(constraint) => constraint,
            Err(refusal) => return Err(refusal),
        };
        list.push(constraint)?;
    }
    Ok(list)
}

fn narrow_constraint<T: Scalar>(
    alloc: Global,
    constraint: &Constraint<i128>,
) -> Result<Constraint<T>, Num>
    ensures same { IfOk result (λ c. condition_of T.integer c ≡ condition_of (λ z. z) constraint.now) }
    ensures cause { IfErr result (λ e. e ≡ Num.Range → HasConditionOutside T.fits (condition_of (λ z. z) constraint.now)) }
{
    match constraint {
        Constraint::Zero(form) => match narrow_row(alloc, form) {
            Ok(form) => Ok(Constraint::Zero(form)),
            Err(refusal) => Err(refusal),
        },
        Constraint::NotNegative(form) => match narrow_row(alloc, form) {
            Ok(form) => Ok(Constraint::NotNegative(form)),
            Err(refusal) => Err(refusal),
        },
        Constraint::Multiple(form, modulus) => narrow_multiple(alloc, form, *modulus),
    }
}

fn narrow_multiple<T: Scalar>(
    alloc: Global,
    form: &Row<i128>,
    modulus: i128,
) -> Result<Constraint<T>, Num>
    ensures same { IfOk result (λ c. condition_of T.integer c ≡ Multiple form.now modulus) }
    ensures cause { IfErr result (λ e. e ≡ Num.Range → HasConditionOutside T.fits (Multiple form.now modulus)) }
{
    let narrow = match T::of_i128(modulus) {
        Some(narrow) => narrow,
        None => return Err(Num::Range),
    };
    match narrow_row(alloc, form) {
        Ok(form) => Ok(Constraint::Multiple(form, narrow)),
        Err(refusal) => Err(refusal),
    }
}

fn narrow_rows<T: Scalar>(alloc: Global, rows: &Rows<i128>) -> Result<Rows<T>, Num>
    ensures same { IfOk result (λ r. r ≡ rows.now) }
    ensures cause { IfErr result (λ e. e ≡ Num.Range → SomeEntryOutside T.fits rows.now) }
{
    let mut list = Rows::new(alloc);
    for place in 0..rows.len() {
        let row = match narrow_row(alloc, rows.at(place)) {
            Ok(row) => row,
            Err(refusal) => return Err(refusal),
        };
        list.push(row)?;
    }
    Ok(list)
}

fn narrow_row<T: Scalar>(alloc: Global, row: &Row<i128>) -> Result<Row<T>, Num>
    ensures same { IfOk result (λ r. r ≡ row.now) }
    ensures cause { IfErr result (λ e. e ≡ Num.Range → HasEntryOutside T.fits row.now) }
{
    let mut entries = match Vec::with_capacity(alloc, row.len()) {
        Ok(entries) => entries,
        Err(_) => return Err(Num::NoMemory),
    };
    for place in 0..row.len() {
        match T::of_i128(row.at(place)) {
            Some(entry) => entries.push_reserved(entry),
            None => return Err(Num::Range),
        }
    }
    Ok(Row::from_vec(entries))
}
