ghost use Rattle.std.specs.Prelude.{◌≡◌, ◌<◌, ℤ, pos, ◌≤ℤ◌, length, IfOk, IfSome, MatchBool, MatchOption, MatchResult};
ghost use Rattle.std.specs.List.{AllByRecursion as Each};
ghost use Rattle.nz_spec.specs.Vectors.{Vector, IsMultipleOf};
ghost use Rattle.nz_spec.specs.Constraints.{Meets, MeetsAll, form_of};
ghost use Rattle.nz_vec.specs.Conditions.{condition_of};
ghost use Rattle.nz_vec.specs.Sums.{SumsFit};
ghost use Rattle.nz_member.specs.Replies.{FindsBroken, HasValueThere};
ghost use Rattle.nz_member.specs.Values.{IsOfWidth, LacksValue};

use nz_vec::{Constraint, Constraints, Num, Row, Scalar, is_zero};

/// Whether every constraint holds at the vector. None only where the value of a form leaves the type.
pub fn member<T: Scalar>(constraints: &Constraints<T>, x: &Row<T>) -> Option<bool>
    requires { Each (IsOfWidth (length x.now)) constraints.now }
    ensures { MatchOption result (LacksValue T.fits constraints.now x.now) (λ b. MatchBool b (MeetsAll constraints.now x.now) (¬ MeetsAll constraints.now x.now)) }
{
    match first_broken(constraints, x) {
        Ok(None) => Some(true),
        Ok(Some(_)) => Some(false),
        Err(_) => None,
    }
}

/// The place of the first constraint that fails at the vector. Range only where the value of a
/// form leaves the type. Takes no memory.
pub(crate) fn first_broken<T: Scalar>(
    constraints: &Constraints<T>,
    x: &Row<T>,
) -> Result<Option<usize>, Num>
    requires { Each (IsOfWidth (length x.now)) constraints.now }
    ensures found { MatchResult result (FindsBroken constraints.now x.now) (λ e. (e ≡ Num.Range) × LacksValue T.fits constraints.now x.now) }
    ensures value { IfOk result (HasValueThere T.fits constraints.now x.now) }
{
    for place in 0..constraints.len() {
        match holds(constraints.at(place), x) {
            Some(true) => {}
            Some(false) => return Ok(Some(place)),
            None => return Err(Num::Range),
        }
    }
    Ok(None)
}

// Whether the constraint holds at the vector.
fn holds<T: Scalar>(constraint: &Constraint<T>, x: &Row<T>) -> Option<bool>
    requires { IsOfWidth (length x.now) (condition_of T.integer constraint.now) }
    ensures holds { MatchOption result (¬ SumsFit T.fits (pos 0) (form_of (condition_of T.integer constraint.now)) x.now) (λ b. MatchBool b (Meets (condition_of T.integer constraint.now) x.now) (¬ Meets (condition_of T.integer constraint.now) x.now)) }
    ensures value { IfSome result (λ _. SumsFit T.fits (pos 0) (form_of (condition_of T.integer constraint.now)) x.now) }
{
    match constraint {
        Constraint::Zero(form) => match form.dot(x) {
            Some(value) => Some(is_zero(value)),
            None => None,
        },
        Constraint::Multiple(form, modulus) => match form.dot(x) {
            Some(value) => Some(is_multiple(value, *modulus)),
            None => None,
        },
        Constraint::NotNegative(form) => match form.dot(x) {
            Some(value) => Some(is_not_negative(value)),
            None => None,
        },
    }
}

fn is_not_negative<T: Scalar>(value: T) -> bool
    ensures { MatchBool result (pos 0 ≤ℤ T.integer value) (¬ (pos 0 ≤ℤ T.integer value)) }
{
    T::of_i64(0) <= value
}

// Whether the value is a multiple of the modulus: it is the modulus times their quotient. The
// remainder would not do, since of the least value of a type it may be no value.
fn is_multiple<T: Scalar>(value: T, modulus: T) -> bool
    requires least { pos 1 ≤ℤ T.integer modulus }
    requires value { T.fits (T.integer value) }
    ensures { MatchBool result (IsMultipleOf (T.integer modulus) (T.integer value)) (¬ IsMultipleOf (T.integer modulus) (T.integer value)) }
{
    let quotient = value.floor_div(modulus).unwrap();
    match quotient.try_mul(modulus) {
        Some(product) => is_same(product, value),
        None => false,
    }
}

pub(crate) fn is_same<T: Scalar>(a: T, b: T) -> bool
    ensures { MatchBool result (T.integer a ≡ T.integer b) (¬ (T.integer a ≡ T.integer b)) }
{
    a == b
}
