//! Constraints that fail, at a place of a text.
ghost use Rattle.std.specs.Prelude.{◌≡◌, ℤ, ◌++◌, ◌∷◌, Option, codes, drop, MatchOption, MatchResult, FitsSigned};
ghost use Rattle.std.specs.Int.{w128};
ghost use Rattle.std.specs.Fmt.{signed_decimal};
ghost use Rattle.nz_vec.specs.Texts.{Text};
ghost use Rattle.nz_vec.specs.Conditions.{condition_of};
ghost use Rattle.nz_spec.specs.Vectors.{Vector, dot};
ghost use Rattle.nz_spec.specs.Constraints.{Constraint as Condition, form_of};
ghost use Rattle.nz_blocks.specs.Beginnings.{unspaced};
ghost use Rattle.nz_blocks.specs.Held.{IsHeldCondition};
ghost use Rattle.nz_blocks.specs.AskedLines.{demand, outside_text};
ghost use Rattle.nz_blocks.specs.Readings.{IsEqual};

use crate::reading_blocks::{behind, number_line};
use crate::reading_numbers::{Found, number};
use crate::reading_rows::numbers;
use crate::refusal::BlockRefusal;
use nz_vec::{Constraint, Row};
use std::alloc::Global;

// That the form is 0, or a multiple of a modulus.
fn equal_at(text: &[u8], from: usize, form: Row<i128>) -> Option<Found<Constraint<i128>>>
    ensures { (c : Condition) (s : Text) → IsHeldCondition c → form ≡ form_of c → IsEqual c → drop from text.now ≡ unspaced (demand c ++ (codes " gives " ++ s)) → MatchOption result ⊥ (λ f. (condition_of (λ z. z) f.value ≡ c) × (drop f.next text.now ≡ codes " gives " ++ s)) }
{
    match behind(text, from, b"= 0 mod ".as_slice()) {
        Some(start) => match number(text, start) {
            Some(modulus) => Some(Found {
                value: Constraint::Multiple(form, modulus.value),
                next: modulus.next,
            }),
            None => None,
        },
        None => match behind(text, from, b"= 0".as_slice()) {
            Some(next) => Some(Found {
                value: Constraint::Zero(form),
                next,
            }),
            None => None,
        },
    }
}

/// The constraint on a form, by what stands behind the spaces that follow the form.
pub fn constraint_at(text: &[u8], from: usize, form: Row<i128>) -> Option<Found<Constraint<i128>>>
    ensures { (c : Condition) (s : Text) → IsHeldCondition c → form ≡ form_of c → drop from text.now ≡ unspaced (demand c ++ (codes " gives " ++ s)) → MatchOption result ⊥ (λ f. (condition_of (λ z. z) f.value ≡ c) × (drop f.next text.now ≡ codes " gives " ++ s)) }
{
    match behind(text, from, b">= 0".as_slice()) {
        Some(next) => Some(Found {
            value: Constraint::NotNegative(form),
            next,
        }),
        None => equal_at(text, from, form),
    }
}

// The place behind the value of a form and the end of its line.
fn value_line(text: &[u8], from: usize) -> Option<usize>
    ensures { (z : ℤ) (s : Text) → FitsSigned w128 z → drop from text.now ≡ codes " gives " ++ (signed_decimal z ++ 10 ∷ s) → MatchOption result ⊥ (λ next. drop next text.now ≡ s) }
{
    let start = match behind(text, from, b" gives ".as_slice()) {
        Some(start) => start,
        None => return None,
    };
    match number_line(text, start) {
        Some(number) => Some(number.next),
        None => None,
    }
}

/// The constraint that fails, to the end of the line; the value of its form is passed over.
pub fn outside(
    alloc: Global,
    text: &[u8],
    from: usize,
) -> Result<Found<Constraint<i128>>, BlockRefusal>
    ensures { (x : Vector) (c : Condition) (s : Text) → IsHeldCondition c → FitsSigned w128 (dot (form_of c) x) → drop from text.now ≡ outside_text x c ++ 10 ∷ s → MatchResult result (λ f. (condition_of (λ z. z) f.value ≡ c) × (drop f.next text.now ≡ s)) (λ e. e ≡ BlockRefusal.NoMemory) }
{
    let start = match behind(text, from, b" out ".as_slice()) {
        Some(start) => start,
        None => return Err(BlockRefusal::Bad),
    };
    let form = match numbers(alloc, text, start) {
        Ok(form) => form,
        Err(refusal) => return Err(refusal),
    };
    let constraint = match constraint_at(text, form.next, form.value) {
        Some(constraint) => constraint,
        None => return Err(BlockRefusal::Bad),
    };
    match value_line(text, constraint.next) {
        Some(next) => Ok(Found {
            value: constraint.value,
            next,
        }),
        None => Err(BlockRefusal::Bad),
    }
}
