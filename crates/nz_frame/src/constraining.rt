// The constraints of a system as one list, in the order in which they are tried.
ghost use Rattle.std.specs.Prelude.{◌≡◌, ◌++◌, [], ◌∷◌, Some, map, IfErr, IfOk, IfSome};
ghost use Rattle.std.specs.List.{AllByRecursion as Each};
ghost use Rattle.nz_spec.specs.Vectors.{HasWidth};
ghost use Rattle.nz_spec.specs.Constraints.{Zero, NotNegative};
ghost use Rattle.nz_vec.specs.Conditions.{condition_of};
ghost use Rattle.nz_measures.specs.Reaches.{HasOwnAbove};
ghost use Rattle.nz_frame.specs.Constraining.{AreAllConstraints, AreWithSwept, AreWithGiven, IsLatticeTooLarge, congruences_in};

use crate::faces::{Faces, faces_of};
use nz_facets::{append_equations, append_inequalities};
use nz_sweep::Basis;
use nz_system::SystemOver;
use nz_vec::{Constraint, Constraints, NoMemory, Num, Rows, Scalar};
use std::alloc::Global;

/// The constraints of the system, in the order in which they are tried at a vector: its equations and
/// those of its generators, its congruences, its inequalities and the support forms of its generators,
/// and last the congruences of its lattice. The equations of the lattice are left out: where one is
/// given, the generators are its vectors, and their equations say the same. Range comes only where a
/// number of the sweep, or a measure in the coordinates of the file, is above `HALF`.
pub fn system_constraints<T: Scalar>(
    alloc: Global,
    system: &SystemOver<T>,
) -> Result<Constraints<T>, Num>
    ensures all { IfOk result (AreAllConstraints system.now.system) }
    ensures cause { IfErr result (λ e. e ≡ Num.Range → HasOwnAbove system.now.system T.HALF) }
{
    system.kept();
    let faces = match faces_of(alloc, system) {
        Ok(faces) => faces,
        Err(refusal) => return Err(refusal),
    };
    let own = match own_constraints(alloc, &faces, &system.cg) {
        Ok(own) => own,
        Err(refusal) => return Err(Num::from(refusal)),
    };
    append_given(alloc, system.width as usize, &system.lat, own)
}

// The equations, then the congruences of the list, and then the rows.
fn own_constraints<T: Scalar>(
    alloc: Global,
    faces: &Faces<T>,
    congruences: &Constraints<T>,
) -> Result<Constraints<T>, NoMemory>
    ensures { IfOk result (λ c. c ≡ map Zero faces.now.equations ++ congruences_in congruences.now ++ map NotNegative faces.now.rows) }
{
    let equations = match append_equations(Constraints::new(alloc), &faces.equations) {
        Ok(equations) => equations,
        Err(refusal) => return Err(refusal),
    };
    let multiples = match append_congruences(equations, congruences) {
        Ok(multiples) => multiples,
        Err(refusal) => return Err(refusal),
    };
    append_inequalities(multiples, &faces.rows)
}

// The constraints of the list, and then the congruences of the lattice, where one is given.
fn append_given<T: Scalar>(
    alloc: Global,
    width: usize,
    lattice: &Option<Rows<T>>,
    list: Constraints<T>,
) -> Result<Constraints<T>, Num>
    requires { IfSome lattice.now (Each (HasWidth width)) }
    ensures all { IfOk result (AreWithGiven width lattice.now list) }
    ensures cause { IfErr result (λ e. e ≡ Num.Range → IsLatticeTooLarge T.HALF width lattice.now) }
{
    match lattice {
        Some(lattice) => append_swept(alloc, width, lattice, list),
        None => Ok(list),
    }
}

// The constraints of the list, and then the congruences of the lattice of these vectors.
fn append_swept<T: Scalar>(
    alloc: Global,
    width: usize,
    vectors: &Rows<T>,
    list: Constraints<T>,
) -> Result<Constraints<T>, Num>
    requires { Each (HasWidth width) vectors.now }
    ensures all { IfOk result (AreWithSwept width vectors.now list) }
    ensures cause { IfErr result (λ e. e ≡ Num.Range → IsLatticeTooLarge T.HALF width (Some vectors.now)) }
{
    let base = match Basis::of_generators(alloc, width, vectors) {
        Ok(base) => base,
        Err(refusal) => return Err(refusal),
    };
    let of_base = match base.lattice_constraints(alloc) {
        Ok(of_base) => of_base,
        Err(refusal) => return Err(refusal),
    };
    match append_congruences(list, &of_base) {
        Ok(all) => Ok(all),
        Err(refusal) => Err(Num::from(refusal)),
    }
}

// The constraints of the list, and then those of the others that are congruences.
fn append_congruences<T: Scalar>(
    mut list: Constraints<T>,
    others: &Constraints<T>,
) -> Result<Constraints<T>, NoMemory>
    ensures { IfOk result (λ c. c ≡ list ++ congruences_in others.now) }
{
    for place in 0..others.len() {
        list = match append_congruence(list, others.at(place)) {
            Ok(list) => list,
            Err(refusal) => return Err(refusal),
        };
    }
    Ok(list)
}

// The constraints of the list, and then this one, where it is a congruence.
fn append_congruence<T: Scalar>(
    mut list: Constraints<T>,
    constraint: &Constraint<T>,
) -> Result<Constraints<T>, NoMemory>
    ensures { IfOk result (λ c. c ≡ list ++ congruences_in (condition_of T.integer constraint.now ∷ [])) }
{
    match constraint {
        Constraint::Multiple(form, modulus) => {
            let copy = match form.try_copy() {
                Ok(copy) => copy,
                Err(refusal) => return Err(refusal),
            };
            match list.push(Constraint::Multiple(copy, *modulus)) {
                Ok(()) => Ok(list),
                Err(refusal) => Err(refusal),
            }
        }
        Constraint::Zero(_) => Ok(list),
        Constraint::NotNegative(_) => Ok(list),
    }
}
