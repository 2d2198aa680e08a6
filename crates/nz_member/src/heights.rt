//! The values of the rows: of the forms that are to be at least 0.
ghost use Rattle.std.specs.Prelude.{◌≡◌, pos, [], ◌∷◌, ◌++◌, length, map, OnOk, Err, MatchResult};
ghost use Rattle.std.specs.List.{AllByRecursion as Each};
ghost use Rattle.nz_spec.specs.Vectors.{values_at};
ghost use Rattle.nz_spec.specs.Constraints.{form_of};
ghost use Rattle.nz_vec.specs.Conditions.{condition_of};
ghost use Rattle.nz_vec.specs.Sums.{SumsFit};
ghost use Rattle.nz_member.specs.Amounts.{rows_of, AreValues};
ghost use Rattle.nz_member.specs.Values.{IsOfWidth, LacksValue};

use nz_vec::{Constraint, Constraints, Num, Row, Scalar};
use std::alloc::Global;

// The values at the vector.
pub(crate) fn values_of<T: Scalar>(
    alloc: Global,
    constraints: &Constraints<T>,
    x: &Row<T>,
) -> Result<Vec<T>, Num>
    requires { Each (IsOfWidth (length x.now)) constraints.now }
    ensures { MatchResult result (λ v. AreValues T.fits (rows_of constraints.now) x.now (map T.integer v.items)) (λ e. e ≡ Num.Range → LacksValue T.fits constraints.now x.now) }
{
    let mut values = Vec::new(alloc);
    for place in 0..constraints.len() {
        match add_value(&mut values, constraints.at(place), x) {
            Ok(()) => {}
            Err(refusal) => return Err(refusal),
        }
    }
    Ok(values)
}

// Appends the value at the vector, where the constraint is a row.
fn add_value<T: Scalar>(
    values: &mut Vec<T>,
    constraint: &Constraint<T>,
    x: &Row<T>,
) -> Result<(), Num>
    requires { IsOfWidth (length x.now) (condition_of T.integer constraint.now) }
    ensures added { OnOk result (map T.integer values.new.items ≡ map T.integer values.old.items ++ values_at (rows_of (condition_of T.integer constraint.now ∷ [])) x.now) }
    ensures fit { OnOk result (Each T.fits (values_at (rows_of (condition_of T.integer constraint.now ∷ [])) x.now)) }
    ensures range { result ≡ Err Num.Range → ¬ SumsFit T.fits (pos 0) (form_of (condition_of T.integer constraint.now)) x.now }
{
    match constraint {
        Constraint::NotNegative(form) => match form.dot(x) {
            Some(value) => match values.push(value) {
                Ok(()) => Ok(()),
                Err(_) => Err(Num::NoMemory),
            },
            None => Err(Num::Range),
        },
        Constraint::Zero(_) => Ok(()),
        Constraint::Multiple(_, _) => Ok(()),
    }
}
