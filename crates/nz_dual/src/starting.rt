// The list of the first stage, from the rays of its rows.
ghost use Rattle.std.specs.Prelude.{◌≡◌, ◌≤◌, length, Contains, MatchResult};
ghost use Rattle.std.specs.List.{AllZip};
ghost use Rattle.nz_spec.specs.Order.{IsLexBefore, IsListOf};
ghost use Rattle.nz_vec.specs.Primitives.{IsPrimitivePart};
ghost use Rattle.nz_range.specs.Measures.{SomeLarge};
ghost use Rattle.nz_classes.specs.Walks.{IsFullSimplex};
ghost use Rattle.nz_dual.specs.DualStages.{IsElement};
ghost use Rattle.nz_dual.specs.FirstStage.{AreCandidates, IsStartRefusal, IsStartWithin};

use crate::sides::{within, work_of};
use nz_classes::walk;
use nz_reducer::irreducibles;
use nz_vec::{Num, Rows, Scalar, Work};
use std::alloc::Global;

/// The irreducibles of the first stage, lexicographically. Each vector of the stage is a sum of rays
/// with whole factors and a vector of their half-open parallelepiped, so the irreducibles are what no
/// other of these vectors reduces.
pub(crate) fn first_list<T: Scalar>(
    alloc: Global,
    rows: &Rows<T>,
    rays: &Rows<T>,
    limit: u32,
) -> Result<Rows<T>, Work>
    requires { IsFullSimplex rays.now rows.now }
    ensures { MatchResult result (λ list. IsListOf IsLexBefore (IsElement (length rays.now) rows.now) list × (length list ≤ limit) × IsStartWithin limit (length rays.now) rows.now rays.now) (IsStartRefusal T.HALF limit (length rays.now) rows.now rays.now) }
{
    let candidates = match candidates_of(alloc, rows, rays, limit) {
        Ok(candidates) => candidates,
        Err(refusal) => return Err(refusal),
    };
    match irreducibles(alloc, &candidates, rows) {
        Ok(list) => Ok(list),
        Err(refusal) => Err(work_of(refusal)),
    }
}

/// The vectors of the half-open parallelepiped, and the rays: all that the stage has to hold at once.
fn candidates_of<T: Scalar>(
    alloc: Global,
    rows: &Rows<T>,
    rays: &Rows<T>,
    limit: u32,
) -> Result<Rows<T>, Work>
    requires { IsFullSimplex rays.now rows.now }
    ensures { MatchResult result (λ list. AreCandidates rays.now list × (length list ≤ limit)) (IsStartRefusal T.HALF limit (length rays.now) rows.now rays.now) }
{
    let forms = match primitives(alloc, rows) {
        Ok(forms) => forms,
        Err(refusal) => return Err(work_of(refusal)),
    };
    let points = match walk(alloc, rays, &forms, limit) {
        Ok(points) => points,
        Err(refusal) => return Err(refusal),
    };
    let candidates = match Rows::joined(points, rays) {
        Ok(candidates) => candidates,
        Err(refusal) => return Err(Work::from(refusal)),
    };
    match within(candidates.len(), limit) {
        Ok(()) => Ok(candidates),
        Err(refusal) => Err(refusal),
    }
}

/// The rows, each divided by the gcd of its entries.
fn primitives<T: Scalar>(alloc: Global, rows: &Rows<T>) -> Result<Rows<T>, Num>
    ensures { MatchResult result (AllZip IsPrimitivePart rows.now) (λ e. e ≡ Num.Range → SomeLarge T.HALF (Contains rows.now)) }
{
    let mut forms = Rows::new(alloc);
    for place in 0..rows.len() {
        let form = match rows.at(place).primitive() {
            Ok(form) => form,
            Err(refusal) => return Err(refusal),
        };
        match forms.push(form) {
            Ok(()) => {}
            Err(refusal) => return Err(Num::from(refusal)),
        }
    }
    Ok(forms)
}
