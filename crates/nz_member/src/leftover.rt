//! The module generator that is left, by the values of the rows at it.
ghost use Rattle.std.specs.Prelude.{◌≡◌, ◌≢◌, ⊤, Option, Some, option_map, length, map, MatchBool, MatchOption, MatchResult};
ghost use Rattle.std.specs.List.{AllByRecursion as Each};
ghost use Rattle.nz_member.specs.Amounts.{rows_of, FindsValues};
ghost use Rattle.nz_member.specs.Values.{IsFitFor};
ghost use Rattle.nz_member.specs.Replies.{LacksValueAt};

use crate::heights::values_of;
use crate::meeting::is_same;
use nz_vec::{Constraints, Num, Rows, Scalar};
use std::alloc::Global;

// Where module generators are given, the place of the one at which the rows have these values.
pub(crate) fn place_left<T: Scalar>(
    alloc: Global,
    constraints: &Constraints<T>,
    modules: Option<&Rows<T>>,
    values: &[T],
) -> Result<Option<usize>, Num>
    requires { MatchOption modules ⊤ (λ m. Each (IsFitFor constraints.now) m.now) }
    ensures { MatchResult result (FindsValues (rows_of constraints.now) (option_map (λ m. m.now) modules.entry) (map T.integer values.now)) (λ e. e ≡ Num.Range → MatchOption modules.entry ⊥ (λ m. LacksValueAt T.fits constraints.now m.now)) }
{
    match modules {
        Some(modules) => place_of(alloc, constraints, modules, values),
        None => Ok(None),
    }
}

fn place_of<T: Scalar>(
    alloc: Global,
    constraints: &Constraints<T>,
    modules: &Rows<T>,
    values: &[T],
) -> Result<Option<usize>, Num>
    requires { Each (IsFitFor constraints.now) modules.now }
    ensures { MatchResult result (FindsValues (rows_of constraints.now) (Some modules.now) (map T.integer values.now)) (λ e. e ≡ Num.Range → LacksValueAt T.fits constraints.now modules.now) }
{
    for place in 0..modules.len() {
        match values_of(alloc, constraints, modules.at(place)) {
            Ok(heights) => {
                if are_same(heights.as_slice(), values) {
                    return Ok(Some(place));
                }
            }
            Err(refusal) => return Err(refusal),
        }
    }
    Ok(None)
}

// Whether two lists stand for the same integers.
fn are_same<T: Scalar>(a: &[T], b: &[T]) -> bool
    ensures { MatchBool result (map T.integer a.now ≡ map T.integer b.now) (map T.integer a.now ≢ map T.integer b.now) }
{
    if a.len() != b.len() {
        return false;
    }
    for place in 0..a.len() {
        if !is_same(a[place], b[place]) {
            return false;
        }
    }
    true
}
