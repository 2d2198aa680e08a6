ghost use Rattle.std.specs.Prelude.{◌≡◌, ⊤, Option, option_map, length, IfOk, MatchOption, MatchResult};
ghost use Rattle.std.specs.List.{AllByRecursion as Each};
ghost use Rattle.nz_spec.specs.Vectors.{HasWidth};
ghost use Rattle.nz_spec.specs.Constraints.{MeetsAll};
ghost use Rattle.nz_member.specs.Values.{IsOfWidth};
ghost use Rattle.nz_member.specs.Replies.{IsInMonoid, IsReplyTo, HasItsValue, LacksNumber};

use crate::heights::values_of;
use crate::leftover::place_left;
use crate::reply::{Reply, outside};
use crate::taking::take_elements;
use nz_vec::{Constraints, Num, Row, Rows, Scalar};
use std::alloc::Global;

/// The first constraint that fails at the vector, or else its parts: how often each element is
/// taken where, again and again, the first of the list that can be taken is. The lists are to be
/// the element lists of the monoid of the constraints; where module generators are given, the
/// Hilbert basis is that of the members of level 0. The module's place counts from 0. The form of a
/// constraint that fails has a value in the type at the vector.
pub fn answer<T: Scalar>(
    alloc: Global,
    constraints: &Constraints<T>,
    x: &Row<T>,
    hilbert: &Rows<T>,
    modules: Option<&Rows<T>>,
) -> Result<Reply<T>, Num>
    requires forms { Each (IsOfWidth (length x.now)) constraints.now }
    requires elements { Each (IsInMonoid (length x.now) constraints.now) hilbert.now }
    requires generators { MatchOption modules ⊤ (λ m. Each (HasWidth (length x.now)) m.now) }
    ensures reply { MatchResult result (IsReplyTo T.integer constraints.now x.now hilbert.now (option_map (λ m. m.now) modules.entry)) (λ e. e ≡ Num.Range → LacksNumber T.fits constraints.now x.now hilbert.now (option_map (λ m. m.now) modules.entry)) }
    ensures value { IfOk result (HasItsValue T.integer T.fits x.now) }
{
    match outside(constraints, x) {
        Ok(Some(constraint)) => Ok(Reply::Outside(constraint)),
        Ok(None) => parts_of(alloc, constraints, x, hilbert, modules),
        Err(refusal) => Err(refusal),
    }
}

// The parts of a vector that meets the constraints.
fn parts_of<T: Scalar>(
    alloc: Global,
    constraints: &Constraints<T>,
    x: &Row<T>,
    hilbert: &Rows<T>,
    modules: Option<&Rows<T>>,
) -> Result<Reply<T>, Num>
    requires forms { Each (IsOfWidth (length x.now)) constraints.now }
    requires elements { Each (IsInMonoid (length x.now) constraints.now) hilbert.now }
    requires generators { MatchOption modules ⊤ (λ m. Each (HasWidth (length x.now)) m.now) }
    requires met { MeetsAll constraints.now x.now }
    ensures reply { MatchResult result (IsReplyTo T.integer constraints.now x.now hilbert.now (option_map (λ m. m.now) modules.entry)) (λ e. e ≡ Num.Range → LacksNumber T.fits constraints.now x.now hilbert.now (option_map (λ m. m.now) modules.entry)) }
    ensures value { IfOk result (HasItsValue T.integer T.fits x.now) }
{
    let mut values = match values_of(alloc, constraints, x) {
        Ok(values) => values,
        Err(refusal) => return Err(refusal),
    };
    let counts = match take_elements(alloc, constraints, hilbert, &mut values) {
        Ok(counts) => counts,
        Err(refusal) => return Err(refusal),
    };
    match place_left(alloc, constraints, modules, values.as_slice()) {
        Ok(module) => Ok(Reply::Parts {
            module,
            counts: Row::from_vec(counts),
        }),
        Err(refusal) => Err(refusal),
    }
}
