//! Whether the sizes of a certificate are those of the monoid, and its first list generates the first stage.
ghost use Rattle.std.specs.Prelude.{◌≡◌, map, FitsSigned, MatchResult};
ghost use Rattle.std.specs.Bool.{MatchBool};
ghost use Rattle.std.specs.Int.{w128};
ghost use Rattle.std.specs.List.{AllByRecursion as Each};
ghost use Rattle.nz_spec.specs.Vectors.{values_at};
ghost use Rattle.nz_order.specs.Boxes.{NonNegative};
ghost use Rattle.nz_spec.specs.Stages.{IsInStage};
ghost use Rattle.nz_further.specs.Certificates.{HasItsSizes, AreAllPoints, GeneratesFirst, IsReducedOver, pairs_of};
ghost use Rattle.nz_vec.specs.Sums.{HasValueOutside};
ghost use Rattle.nz_cert.specs.Monoids.{InLattice, IsGround, HasFormOutside, AreReady};

use crate::Certificate;
use crate::monoid::Monoid;
use crate::tables::{are_not_negative, are_reduced, values_table};
use nz_vec::{Num, Rows};
use std::alloc::Global;

/// Whether the width, the rank and the number of rows are those of the monoid.
pub fn has_its_sizes(monoid: &Monoid, cert: &Certificate) -> bool
    ensures { MatchBool result (HasItsSizes monoid.now.width monoid.now.base monoid.now.rows cert.now) (¬ HasItsSizes monoid.now.width monoid.now.base monoid.now.rows cert.now) }
{
    if cert.width != monoid.width {
        return false;
    }
    if cert.rank as usize != monoid.base.len() {
        return false;
    }
    cert.order.len() == monoid.rows.len()
}

// Whether the values of each vector are reduced over the table.
fn all_reduced(
    alloc: Global,
    forms: &Rows<i128>,
    table: &Rows<i128>,
    vectors: &Rows<i128>,
) -> Result<bool, Num>
    requires { AreReady forms.now table.now vectors.now }
    ensures { MatchResult result (λ yes. MatchBool yes (Each (IsReducedOver NonNegative table.now) (map (values_at forms.now) vectors.now)) (¬ Each (IsReducedOver NonNegative table.now) (map (values_at forms.now) vectors.now))) (λ e. e ≡ Num.Range → HasValueOutside (FitsSigned w128) forms.now vectors.now) }
{
    let values = match values_table(alloc, forms, vectors) {
        Ok(values) => values,
        Err(refusal) => return Err(refusal),
    };
    match are_reduced(alloc, table, &values) {
        Ok(yes) => Ok(yes),
        Err(refusal) => Err(Num::from(refusal)),
    }
}

/// Whether the first list is of the first stage, and each point and each ray is reduced over it there.
pub fn generates_first(
    alloc: Global,
    monoid: &Monoid,
    cert: &Certificate,
    first: &Rows<i128>,
) -> Result<bool, Num>
    requires ground { IsGround monoid.now cert.now first.now }
    requires points { AreAllPoints monoid.now.width monoid.now.base (pairs_of first.now cert.now.rays) cert.now.points }
    ensures { MatchResult result (λ yes. MatchBool yes (GeneratesFirst (IsInStage (InLattice monoid.now) first.now) cert.now) (¬ GeneratesFirst (IsInStage (InLattice monoid.now) first.now) cert.now)) (λ e. e ≡ Num.Range → HasFormOutside (FitsSigned w128) first.now cert.now) }
{
    let _ = &monoid.width;
    let table = match values_table(alloc, first, &cert.first) {
        Ok(table) => table,
        Err(refusal) => return Err(refusal),
    };
    if !are_not_negative(&table) {
        return Ok(false);
    }
    match all_reduced(alloc, first, &table, &cert.points) {
        Ok(true) => {}
        Ok(false) => return Ok(false),
        Err(refusal) => return Err(refusal),
    }
    match all_reduced(alloc, first, &table, &cert.rays) {
        Ok(yes) => Ok(yes),
        Err(refusal) => Err(refusal),
    }
}
