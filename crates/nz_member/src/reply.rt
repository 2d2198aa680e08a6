ghost use Rattle.std.specs.Prelude.{◌≡◌, pos, length, IfOk, IfSome, MatchOption, MatchResult};
ghost use Rattle.std.specs.List.{AllByRecursion as Each};
ghost use Rattle.nz_spec.specs.Constraints.{MeetsAll, IsFirstBroken, form_of};
ghost use Rattle.nz_vec.specs.Conditions.{condition_of};
ghost use Rattle.nz_vec.specs.Sums.{SumsFit};
ghost use Rattle.nz_member.specs.Values.{IsOfWidth, LacksValue};

use crate::meeting::first_broken;
use nz_vec::{Constraint, Constraints, NoMemory, Num, Row, Scalar};

/// What is answered of a vector.
#[derive(Drop)]
pub enum Reply<T: Scalar> {
    /// How often each element of the Hilbert basis is taken, and the place, from 0, of the module
    /// generator that is left.
    Parts {
        module: Option<usize>,
        counts: Row<T>,
    },
    /// The first constraint that fails.
    Outside(Constraint<T>),
}

/// The first constraint that fails at the vector, if one does.
pub(crate) fn outside<T: Scalar>(
    constraints: &Constraints<T>,
    x: &Row<T>,
) -> Result<Option<Constraint<T>>, Num>
    requires { Each (IsOfWidth (length x.now)) constraints.now }
    ensures broken { MatchResult result (λ broken. MatchOption broken (MeetsAll constraints.now x.now) (λ c. IsFirstBroken constraints.now x.now (condition_of T.integer c))) (λ e. e ≡ Num.Range → LacksValue T.fits constraints.now x.now) }
    ensures value { IfOk result (λ broken. IfSome broken (λ c. SumsFit T.fits (pos 0) (form_of (condition_of T.integer c)) x.now)) }
{
    match first_broken(constraints, x) {
        Ok(None) => Ok(None),
        Ok(Some(place)) => match copy_of(constraints.at(place)) {
            Ok(constraint) => Ok(Some(constraint)),
            Err(NoMemory) => Err(Num::NoMemory),
        },
        Err(refusal) => Err(refusal),
    }
}

/// An equal constraint.
pub(crate) fn copy_of<T: Scalar>(constraint: &Constraint<T>) -> Result<Constraint<T>, NoMemory>
    ensures { IfOk result (λ c. condition_of T.integer c ≡ condition_of T.integer constraint.now) }
{
    match constraint {
        Constraint::Zero(form) => Ok(Constraint::Zero(form.try_copy()?)),
        Constraint::Multiple(form, modulus) => Ok(Constraint::Multiple(form.try_copy()?, *modulus)),
        Constraint::NotNegative(form) => Ok(Constraint::NotNegative(form.try_copy()?)),
    }
}
