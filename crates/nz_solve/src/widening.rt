// Lists of the integers of one type at the greatest width.
ghost use Rattle.std.specs.Prelude.{◌≡◌, IfOk, option_map};
ghost use Rattle.nz_vec.specs.Conditions.{condition_of};

use nz_vec::{Constraint, Constraints, NoMemory, Rows, Scalar};
use std::alloc::Global;

/// The same rows.
pub(crate) fn widen_rows<T: Scalar>(alloc: Global, rows: &Rows<T>) -> Result<Rows<i128>, NoMemory>
    ensures { IfOk result (λ r. r ≡ rows.now) }
{
    let mut list = Rows::new(alloc);
    for place in 0..rows.len() {
        let row = rows.at(place).widen()?;
        list.push(row)?;
    }
    Ok(list)
}

/// The same rows, where they are given.
pub(crate) fn widen_given<T: Scalar>(
    alloc: Global,
    given: &Option<Rows<T>>,
) -> Result<Option<Rows<i128>>, NoMemory>
    ensures { IfOk result (λ o. o ≡ given.now) }
{
    match given {
        Some(rows) => Ok(Some(widen_rows(alloc, rows)?)),
        None => Ok(None),
    }
}

/// The same number, where it is given.
pub(crate) fn widen_number<T: Scalar>(given: Option<T>) -> Option<i128>
    ensures { result ≡ option_map T.integer given }
{
    match given {
        Some(number) => Some(number.to_i128()),
        None => None,
    }
}

/// The same constraints.
pub(crate) fn widen_constraints<T: Scalar>(
    alloc: Global,
    constraints: &Constraints<T>,
) -> Result<Constraints<i128>, NoMemory>
    ensures { IfOk result (λ c. c ≡ constraints.now) }
{
    let mut list = Constraints::new(alloc);
    for place in 0..constraints.len() {
        let constraint = widen_constraint(constraints.at(place))?;
        list.push(constraint)?;
    }
    Ok(list)
}

fn widen_constraint<T: Scalar>(constraint: &Constraint<T>) -> Result<Constraint<i128>, NoMemory>
    ensures { IfOk result (λ c. condition_of (λ z. z) c ≡ condition_of T.integer constraint.now) }
{
    match constraint {
        Constraint::Zero(form) => Ok(Constraint::Zero(form.widen()?)),
        Constraint::NotNegative(form) => Ok(Constraint::NotNegative(form.widen()?)),
        Constraint::Multiple(form, modulus) => {
            Ok(Constraint::Multiple(form.widen()?, modulus.to_i128()))
        }
    }
}
