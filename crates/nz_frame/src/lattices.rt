// The lattice of a system: the vectors at which its equations and congruences hold.
ghost use Rattle.nz_spec.specs.Constraints.{AreEquationsOf};
ghost use Rattle.nz_measures.specs.Reaches.{HasOwnAbove};
ghost use Rattle.std.specs.Prelude.{◌≡◌, [], ◌∷◌, pos, ◌≤ℤ◌, IfOk, IfErr, IfSome, Some, None};
ghost use Rattle.std.specs.List.{AllByRecursion as Each};
ghost use Rattle.nz_spec.specs.Vectors.{HasWidth, dot};
ghost use Rattle.nz_spec.specs.Systems.{Congruence, IsMultipleBy};
ghost use Rattle.nz_spec.specs.Stages.{IsInLattice};
ghost use Rattle.nz_vec.specs.Conditions.{condition_of};
ghost use Rattle.nz_sweep.specs.Bases.{IsBase};
ghost use Rattle.nz_sweep.specs.Cuts.{IsCut};
ghost use Rattle.nz_system.specs.Meaning.{congruences_of};
ghost use Rattle.nz_sweep.specs.Numbers.{SomeNumberLarge, IsGeneratingNumber};
ghost use Rattle.nz_sweep.specs.Rounds.{IsEquationMove};
ghost use Rattle.nz_measures.specs.Sweeps.{Sweeps, IsFirstBase, IsGeneratedBase, CongruenceMove, IsSwept, whole_base};
ghost use Rattle.nz_frame.specs.Frames.{IsBaseOf, IsInGiven, IsGroupTooLarge, SomeCutLarge, SomeCongruenceLarge};

use nz_sweep::Basis;
use nz_system::SystemOver;
use nz_vec::{Constraint, Constraints, Num, Rows, Scalar};
use std::alloc::Global;

/// A base of the vectors of the lattice of the system, where these are all its equations.
pub(crate) fn lattice<T: Scalar>(
    alloc: Global,
    system: &SystemOver<T>,
    equations: &Rows<T>,
) -> Result<Basis<T>, Num>
    requires { Each (HasWidth system.now.system.width) equations.now }
    ensures base { IfOk result (IsBaseOf system.now.system.width (IsInLattice system.now.system equations.now)) }
    ensures swept { IfOk result (λ b. AreEquationsOf system.now.system equations.now → IsSwept system.now.system b) }
    ensures cause { IfErr result (λ e. e ≡ Num.Range → AreEquationsOf system.now.system equations.now → HasOwnAbove system.now.system T.HALF) }
{
    system.kept();
    let first = match begun(alloc, system.width as usize, &system.lat) {
        Ok(first) => first,
        Err(refusal) => return Err(refusal),
    };
    let cut = match with_equations(alloc, first, equations) {
        Ok(cut) => cut,
        Err(refusal) => return Err(refusal),
    };
    with_congruences(alloc, cut, &system.cg)
}

// A base of the group of the vectors, where they are given, and else of all vectors.
fn begun<T: Scalar>(alloc: Global, width: usize, vectors: &Option<Rows<T>>) -> Result<Basis<T>, Num>
    requires { IfSome vectors.now (Each (HasWidth width)) }
    ensures base { IfOk result (IsBaseOf width (IsInGiven width vectors.now)) }
    ensures first { IfOk result (IsFirstBase width vectors.now) }
    ensures cause { IfErr result (λ e. e ≡ Num.Range → IsGroupTooLarge T.HALF width vectors.now) }
{
    match vectors {
        Some(vectors) => generated(alloc, width, vectors),
        None => whole(alloc, width),
    }
}

fn generated<T: Scalar>(alloc: Global, width: usize, vectors: &Rows<T>) -> Result<Basis<T>, Num>
    requires { Each (HasWidth width) vectors.now }
    ensures base { IfOk result (IsBaseOf width (IsInGiven width (Some vectors.now))) }
    ensures first { IfOk result (IsGeneratedBase width vectors.now) }
    ensures cause { IfErr result (λ e. e ≡ Num.Range → SomeNumberLarge T.HALF (IsGeneratingNumber width vectors.now)) }
{
    let base = match Basis::of_generators(alloc, width, vectors) {
        Ok(base) => base,
        Err(refusal) => return Err(refusal),
    };
    let _rank = base.rank();
    Ok(base)
}

fn whole<T: Scalar>(alloc: Global, width: usize) -> Result<Basis<T>, Num>
    ensures base { IfOk result (IsBaseOf width (IsInGiven width None)) }
    ensures first { IfOk result (λ b. b ≡ whole_base width) }
    ensures cause { IfErr result (λ e. e ≡ Num.NoMemory) }
{
    let base = match Basis::whole(alloc, width) {
        Ok(base) => base,
        Err(refusal) => return Err(Num::from(refusal)),
    };
    let _rank = base.rank();
    Ok(base)
}

// The base cut by each form.
fn with_equations<T: Scalar>(
    alloc: Global,
    mut base: Basis<T>,
    forms: &Rows<T>,
) -> Result<Basis<T>, Num>
    requires base { IsBase base }
    requires forms { Each (HasWidth base.width) forms.now }
    ensures width { IfOk result (λ b. b.width ≡ base.width) }
    ensures cut { IfOk result (λ b. IsCut (λ x. Each (λ f. dot f x ≡ pos 0) forms.now) base.width base.vectors b.vectors) }
    ensures sweeps { IfOk result (λ b. Sweeps IsEquationMove forms.now base b) }
    ensures cause { IfErr result (λ e. e ≡ Num.Range → SomeCutLarge T.HALF forms.now base) }
{
    for place in 0..forms.len() {
        match base.cut_equation(alloc, forms.at(place)) {
            Ok(()) => {}
            Err(refusal) => return Err(refusal),
        }
    }
    Ok(base)
}

// The base cut by each congruence of the list.
fn with_congruences<T: Scalar>(
    alloc: Global,
    mut base: Basis<T>,
    constraints: &Constraints<T>,
) -> Result<Basis<T>, Num>
    requires base { IsBase base }
    requires forms { Each (λ (c : Congruence). HasWidth base.width c.form) (congruences_of constraints.now) }
    requires moduli { Each (λ (c : Congruence). pos 1 ≤ℤ c.modulus) (congruences_of constraints.now) }
    ensures width { IfOk result (λ b. b.width ≡ base.width) }
    ensures cut { IfOk result (λ b. IsCut (λ x. Each (λ c. IsMultipleBy c x) (congruences_of constraints.now)) base.width base.vectors b.vectors) }
    ensures sweeps { IfOk result (λ b. Sweeps CongruenceMove (congruences_of constraints.now) base b) }
    ensures cause { IfErr result (λ e. e ≡ Num.Range → SomeCongruenceLarge T.HALF (congruences_of constraints.now) base) }
{
    for place in 0..constraints.len() {
        base = match with_congruence(alloc, base, constraints.at(place)) {
            Ok(base) => base,
            Err(refusal) => return Err(refusal),
        };
    }
    Ok(base)
}

// The base cut by the constraint, if that is a congruence.
fn with_congruence<T: Scalar>(
    alloc: Global,
    mut base: Basis<T>,
    constraint: &Constraint<T>,
) -> Result<Basis<T>, Num>
    requires base { IsBase base }
    requires form { Each (λ (c : Congruence). HasWidth base.width c.form) (congruences_of (condition_of T.integer constraint.now ∷ [])) }
    requires modulus { Each (λ (c : Congruence). pos 1 ≤ℤ c.modulus) (congruences_of (condition_of T.integer constraint.now ∷ [])) }
    ensures width { IfOk result (λ b. b.width ≡ base.width) }
    ensures cut { IfOk result (λ b. IsCut (λ x. Each (λ c. IsMultipleBy c x) (congruences_of (condition_of T.integer constraint.now ∷ []))) base.width base.vectors b.vectors) }
    ensures sweeps { IfOk result (λ b. Sweeps CongruenceMove (congruences_of (condition_of T.integer constraint.now ∷ [])) base b) }
    ensures cause { IfErr result (λ e. e ≡ Num.Range → SomeCongruenceLarge T.HALF (congruences_of (condition_of T.integer constraint.now ∷ [])) base) }
{
    match constraint {
        Constraint::Multiple(form, modulus) => {
            match base.cut_congruence(alloc, form, *modulus) {
                Ok(()) => Ok(base),
                Err(refusal) => Err(refusal),
            }
        }
        Constraint::Zero(_) => Ok(base),
        Constraint::NotNegative(_) => Ok(base),
    }
}
