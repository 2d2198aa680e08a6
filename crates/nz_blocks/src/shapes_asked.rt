//! Whether the asked vectors of a draft are answered as those of an outcome.
ghost use Rattle.std.specs.Prelude.{◌≡◌, ℤ, pos, ◌≤ℤ◌, IfOk, IfSome};
ghost use Rattle.std.specs.Bool.{MatchBool};
ghost use Rattle.std.specs.List.{AllByRecursion as Each};
ghost use Rattle.nz_vec.specs.Conditions.{condition_of};
ghost use Rattle.nz_member.specs.Values.{HasModulus};
ghost use Rattle.nz_blocks.specs.Outcomes.{AreParts, HasValueAt, IsAsked};

use crate::AskedList;
use crate::asked_lines::{as_row, form_of};
use crate::draft::{Draft, number_of};
use nz_member::Reply;
use nz_vec::{Constraint, NoMemory, Row};
use std::alloc::Global;

fn none_below_zero(counts: &Row<i128>) -> bool
    ensures { MatchBool result (Each (λ c. pos 0 ≤ℤ c) counts.now) (¬ Each (λ c. pos 0 ≤ℤ c) counts.now) }
{
    for index in 0..counts.len() {
        if counts.at(index) < 0 {
            return false;
        }
    }
    true
}

// Whether the counts and the module generator are those of an answer.
fn are_parts(draft: &Draft, named: Option<usize>, counts: &Row<i128>) -> bool
    ensures { MatchBool result (AreParts draft.now named counts.now) (¬ AreParts draft.now named counts.now) }
{
    if counts.len() != number_of(&draft.hilbert) {
        return false;
    }
    if !none_below_zero(counts) {
        return false;
    }
    match named {
        Some(place) => {
            if draft.level {
                place < number_of(&draft.modules)
            } else {
                false
            }
        }
        None => !draft.level,
    }
}

fn has_modulus(constraint: &Constraint<i128>) -> bool
    ensures { MatchBool result (HasModulus (condition_of (λ z. z) constraint.now)) (¬ HasModulus (condition_of (λ z. z) constraint.now)) }
{
    match constraint {
        Constraint::Zero(_) => true,
        Constraint::NotNegative(_) => true,
        Constraint::Multiple(_, modulus) => *modulus >= 1,
    }
}

// Whether the form of the constraint has a value at the vector.
fn has_value(
    alloc: Global,
    level: bool,
    x: &Row<i128>,
    constraint: &Constraint<i128>,
) -> Result<bool, NoMemory>
    ensures { IfOk result (λ b. MatchBool b (HasValueAt level x.now (condition_of (λ z. z) constraint.now)) (¬ HasValueAt level x.now (condition_of (λ z. z) constraint.now))) }
{
    let row = match as_row(alloc, level, x) {
        Ok(row) => row,
        Err(refusal) => return Err(refusal),
    };
    let form = form_of(constraint);
    if form.len() != row.len() {
        return Ok(false);
    }
    if !has_modulus(constraint) {
        return Ok(false);
    }
    match form.dot(&row) {
        Some(_) => Ok(true),
        None => Ok(false),
    }
}

fn is_answered(
    alloc: Global,
    draft: &Draft,
    asked: &(Row<i128>, Reply<i128>),
) -> Result<bool, NoMemory>
    ensures { IfOk result (λ b. MatchBool b (IsAsked draft.now asked.now) (¬ IsAsked draft.now asked.now)) }
{
    if asked.0.len() != draft.amb as usize {
        return Ok(false);
    }
    match &asked.1 {
        Reply::Parts { module, counts } => Ok(are_parts(draft, *module, counts)),
        Reply::Outside(constraint) => has_value(alloc, draft.level, &asked.0, constraint),
    }
}

fn all_answered(alloc: Global, draft: &Draft, list: &AskedList) -> Result<bool, NoMemory>
    ensures { IfOk result (λ b. MatchBool b (Each (IsAsked draft.now) list.now) (¬ Each (IsAsked draft.now) list.now)) }
{
    for place in 0..list.len() {
        match is_answered(alloc, draft, list.at(place)) {
            Ok(true) => {}
            Ok(false) => return Ok(false),
            Err(refusal) => return Err(refusal),
        }
    }
    Ok(true)
}

/// Whether each asked vector is answered as in an outcome.
pub fn answers_fit(alloc: Global, draft: &Draft) -> Result<bool, NoMemory>
    ensures { IfOk result (λ b. MatchBool b (IfSome draft.now.asked (Each (IsAsked draft.now))) (¬ IfSome draft.now.asked (Each (IsAsked draft.now)))) }
{
    match &draft.asked {
        Some(list) => all_answered(alloc, draft, list),
        None => Ok(true),
    }
}
