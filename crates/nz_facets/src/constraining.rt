ghost use Rattle.std.specs.Prelude.{◌≡◌, ◌⊎◌, ◌++◌, ⊤, map, option_map, IfErr, IfOk, MatchOption};
ghost use Rattle.std.specs.List.{AllByRecursion as Each};
ghost use Rattle.nz_spec.specs.Vectors.{HasWidth};
ghost use Rattle.nz_spec.specs.Sums.{IsInCone};
ghost use Rattle.nz_spec.specs.Constraints.{Zero, NotNegative};
ghost use Rattle.nz_vec.specs.Conditions.{condition_of};
ghost use Rattle.nz_pointed.specs.Pointed.{IsTooLarge};
ghost use Rattle.nz_member.specs.Values.{IsOfWidth};
ghost use Rattle.nz_sweep.specs.Generating.{IsEchelon};
ghost use Rattle.nz_facets.specs.Members.{HaveMembers, IsInGiven, IsGivenTooLarge, AreConeConstraints, AreOfGiven, AreConstraintsOf};

use crate::describing::describe;
use nz_sweep::Basis;
use nz_vec::{Constraint, Constraints, NoMemory, Num, Rows, Scalar};
use std::alloc::Global;

/// Constraints that exactly those vectors meet of which some positive multiple is a sum of the
/// generators with counts, and which are in the lattice where one is given: those of the cone, and
/// last those of the lattice. Range comes as with `describe`, and as with `lattice_constraints` where
/// a lattice is given.
pub fn constraints_of<T: Scalar>(
    alloc: Global,
    width: usize,
    gens: &Rows<T>,
    lattice: Option<&Basis<T>>,
) -> Result<Constraints<T>, Num>
    requires gens { Each (HasWidth width) gens.now }
    requires lattice { MatchOption lattice ⊤ (λ b. (b.now.width ≡ width) × IsEchelon b.now.vectors) }
    ensures constraints { IfOk result (AreConstraintsOf width gens.now (option_map (λ b. b.now.vectors) lattice.entry)) }
    ensures members { IfOk result (HaveMembers width (λ x. IsInCone width gens.now x × IsInGiven width (option_map (λ b. b.now.vectors) lattice.entry) x)) }
    ensures shape { IfOk result (Each (IsOfWidth width)) }
    ensures range { IfErr result (λ e. e ≡ Num.Range → IsTooLarge T.HALF width gens.now ⊎ IsGivenTooLarge T.HALF width (option_map (λ b. b.now.vectors) lattice.entry)) }
{
    let cone = match cone_constraints(alloc, width, gens) {
        Ok(cone) => cone,
        Err(refusal) => return Err(refusal),
    };
    let given = match of_lattice(alloc, width, lattice) {
        Ok(given) => given,
        Err(refusal) => return Err(refusal),
    };
    match append_constraints(cone, &given) {
        Ok(all) => Ok(all),
        Err(refusal) => Err(Num::from(refusal)),
    }
}

/// Constraints that exactly those vectors meet of which some positive multiple is a sum of the
/// generators with counts: the equations and then the support forms. Range comes as with `describe`.
pub fn cone_constraints<T: Scalar>(
    alloc: Global,
    width: usize,
    gens: &Rows<T>,
) -> Result<Constraints<T>, Num>
    requires { Each (HasWidth width) gens.now }
    ensures constraints { IfOk result (AreConeConstraints width gens.now) }
    ensures members { IfOk result (HaveMembers width (IsInCone width gens.now)) }
    ensures shape { IfOk result (Each (IsOfWidth width)) }
    ensures range { IfErr result (λ e. e ≡ Num.Range → IsTooLarge T.HALF width gens.now) }
{
    let description = match describe(alloc, width, gens) {
        Ok(description) => description,
        Err(refusal) => return Err(refusal),
    };
    let zeros = match append_equations(Constraints::new(alloc), &description.equations) {
        Ok(zeros) => zeros,
        Err(refusal) => return Err(Num::from(refusal)),
    };
    match append_inequalities(zeros, &description.support) {
        Ok(all) => Ok(all),
        Err(refusal) => Err(Num::from(refusal)),
    }
}

// The constraints of the lattice, and none where none is given.
fn of_lattice<T: Scalar>(
    alloc: Global,
    width: usize,
    lattice: Option<&Basis<T>>,
) -> Result<Constraints<T>, Num>
    requires { MatchOption lattice ⊤ (λ b. (b.now.width ≡ width) × IsEchelon b.now.vectors) }
    ensures constraints { IfOk result (AreOfGiven width (option_map (λ b. b.now.vectors) lattice.entry)) }
    ensures members { IfOk result (HaveMembers width (IsInGiven width (option_map (λ b. b.now.vectors) lattice.entry))) }
    ensures range { IfErr result (λ e. e ≡ Num.Range → IsGivenTooLarge T.HALF width (option_map (λ b. b.now.vectors) lattice.entry)) }
{
    match lattice {
        Some(lattice) => lattice.lattice_constraints(alloc),
        None => Ok(Constraints::new(alloc)),
    }
}

/// The constraints of the list, and then that each of the forms is to be 0.
pub fn append_equations<T: Scalar>(
    mut list: Constraints<T>,
    forms: &Rows<T>,
) -> Result<Constraints<T>, NoMemory>
    ensures { IfOk result (λ c. c ≡ list ++ map Zero forms.now) }
{
    for place in 0..forms.len() {
        let form = match forms.at(place).try_copy() {
            Ok(form) => form,
            Err(refusal) => return Err(refusal),
        };
        match list.push(Constraint::Zero(form)) {
            Ok(()) => {}
            Err(refusal) => return Err(refusal),
        }
    }
    Ok(list)
}

/// The constraints of the list, and then that each of the forms is to be at least 0.
pub fn append_inequalities<T: Scalar>(
    mut list: Constraints<T>,
    forms: &Rows<T>,
) -> Result<Constraints<T>, NoMemory>
    ensures { IfOk result (λ c. c ≡ list ++ map NotNegative forms.now) }
{
    for place in 0..forms.len() {
        let form = match forms.at(place).try_copy() {
            Ok(form) => form,
            Err(refusal) => return Err(refusal),
        };
        match list.push(Constraint::NotNegative(form)) {
            Ok(()) => {}
            Err(refusal) => return Err(refusal),
        }
    }
    Ok(list)
}

// The constraints of the list, and then copies of the others.
fn append_constraints<T: Scalar>(
    mut list: Constraints<T>,
    others: &Constraints<T>,
) -> Result<Constraints<T>, NoMemory>
    ensures { IfOk result (λ c. c ≡ list ++ others.now) }
{
    for place in 0..others.len() {
        let constraint = match copy_of(others.at(place)) {
            Ok(constraint) => constraint,
            Err(refusal) => return Err(refusal),
        };
        match list.push(constraint) {
            Ok(()) => {}
            Err(refusal) => return Err(refusal),
        }
    }
    Ok(list)
}

// An equal constraint.
fn copy_of<T: Scalar>(constraint: &Constraint<T>) -> Result<Constraint<T>, NoMemory>
    ensures { IfOk result (λ c. condition_of T.integer c ≡ condition_of T.integer constraint.now) }
{
    match constraint {
        Constraint::Zero(form) => match form.try_copy() {
            Ok(copy) => Ok(Constraint::Zero(copy)),
            Err(refusal) => Err(refusal),
        },
        Constraint::Multiple(form, modulus) => match form.try_copy() {
            Ok(copy) => Ok(Constraint::Multiple(copy, *modulus)),
            Err(refusal) => Err(refusal),
        },
        Constraint::NotNegative(form) => match form.try_copy() {
            Ok(copy) => Ok(Constraint::NotNegative(copy)),
            Err(refusal) => Err(refusal),
        },
    }
}
