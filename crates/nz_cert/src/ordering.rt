//! Whether the last list is in order, and no element of it can be taken from another one.
ghost use Rattle.std.specs.Prelude.{◌≡◌, ◌≢◌, ℕ, ◌+◌, ◌<◌, length, map, slice_index_or, [], FitsSigned, MatchResult};
ghost use Rattle.std.specs.Bool.{MatchBool};
ghost use Rattle.std.specs.Int.{w128};
ghost use Rattle.std.specs.List.{AllByRecursion as Each};
ghost use Rattle.nz_spec.specs.Vectors.{HasWidth};
ghost use Rattle.nz_spec.specs.Order.{IsLexBefore, Pairwise};
ghost use Rattle.nz_spec.specs.Stages.{IsInStage};
ghost use Rattle.nz_further.specs.Certificates.{IsWithoutReducible, last_of};
ghost use Rattle.nz_cert.specs.Monoids.{InLattice, IsGround, HasFormOutside, HasOtherBelow, IsApart};

use crate::Certificate;
use crate::monoid::Monoid;
use crate::reduction::is_below;
use crate::tables::values_table;
use nz_vec::{Num, Row, Rows, Scalar, cmp_order};
use std::alloc::Global;
use std::cmp::Ordering;

fn is_before<T: Scalar>(u: &Row<T>, v: &Row<T>) -> bool
    requires { length u.now ≡ length v.now }
    ensures { MatchBool result (IsLexBefore u.now v.now) (¬ IsLexBefore u.now v.now) }
{
    let zero = T::of_i64(0);
    match cmp_order(zero, u, zero, v) {
        Ordering::Less => true,
        Ordering::Equal => false,
        Ordering::Greater => false,
    }
}

// Whether each vector stands before the next one.
fn is_increasing<T: Scalar>(width: usize, list: &Rows<T>) -> bool
    requires { Each (HasWidth width) list.now }
    ensures { MatchBool result (Pairwise IsLexBefore list.now) (¬ Pairwise IsLexBefore list.now) }
{
    let mut place = 1;
    while place < list.len() {
        if !is_before(list.at(place - 1), list.at(place)) {
            return false;
        }
        place += 1;
    }
    true
}

// Whether an entry at another place is at most the one at this place.
fn has_other_below<T: Scalar>(columns: usize, table: &Rows<T>, place: usize) -> bool
    requires wide { Each (HasWidth columns) table.now }
    requires within { place < length table.now }
    ensures { MatchBool result (HasOtherBelow table.now place) (¬ HasOtherBelow table.now place) }
{
    for other in 0..table.len() {
        if other != place {
            if is_below(table.at(other), table.at(place)) {
                return true;
            }
        }
    }
    false
}

// Whether no entry is at most one at another place.
fn is_apart<T: Scalar>(columns: usize, table: &Rows<T>) -> bool
    requires { Each (HasWidth columns) table.now }
    ensures { MatchBool result (IsApart table.now) (¬ IsApart table.now) }
{
    for place in 0..table.len() {
        if has_other_below(columns, table, place) {
            return false;
        }
    }
    true
}

/// The list of the last stage.
pub fn last_list(cert: &Certificate) -> &Rows<i128>
    ensures { result.now ≡ last_of cert.now.first cert.now.above }
{
    let stages = cert.plus.len();
    if stages == 0 {
        &cert.first
    } else {
        cert.plus.at(stages - 1)
    }
}

/// Whether the last list is in order, and no two different elements of it have a difference in the monoid.
pub fn is_without_reducible(
    alloc: Global,
    monoid: &Monoid,
    cert: &Certificate,
    first: &Rows<i128>,
) -> Result<bool, Num>
    requires { IsGround monoid.now cert.now first.now }
    ensures { MatchResult result (λ yes. MatchBool yes (IsWithoutReducible (IsInStage (InLattice monoid.now) monoid.now.rows) (last_of cert.now.first cert.now.above)) (¬ IsWithoutReducible (IsInStage (InLattice monoid.now) monoid.now.rows) (last_of cert.now.first cert.now.above))) (λ e. e ≡ Num.Range → HasFormOutside (FitsSigned w128) monoid.now.rows cert.now) }
{
    let list = last_list(cert);
    if !is_increasing(cert.width as usize, list) {
        return Ok(false);
    }
    let table = match values_table(alloc, &monoid.rows, list) {
        Ok(table) => table,
        Err(refusal) => return Err(refusal),
    };
    Ok(is_apart(monoid.rows.len(), &table))
}
