// The lattice points of bounded rows.
ghost use Rattle.std.specs.Prelude.{◌≡◌, ◌∷◌, [], Contains, IfOk, MatchResult};
ghost use Rattle.std.specs.List.{AllByRecursion as Each};
ghost use Rattle.nz_spec.specs.Vectors.{HasWidth};
ghost use Rattle.nz_lift.specs.Directions.{IsUntold};
ghost use Rattle.nz_lift.specs.Lifts.{IsLifted, IsLiftRefusal};

use crate::directions::{Directions, directions_of};
use crate::forms::forms_of;
use crate::lifting::lifted;
use nz_vec::{NoMemory, Num, Row, Rows, Scalar, Work};
use std::alloc::Global;

/// What is known of the vectors of level 1 at which rows are at least 0.
#[derive(Drop)]
pub enum Lifted<T: Scalar> {
    /// The lattice points, lexicographically.
    Points(Rows<T>),
    /// A primitive vector of level 0 at which the rows are at least 0.
    Unbounded(Row<T>),
}

/// The lattice points of a polytope: the integer vectors at which the rows are at least 0 and the
/// level, which is one of the rows, is 1. Unbounded comes exactly where some nonzero integer vector
/// has the rows at least 0 and the level 0.
///
/// A shadow has the integer vectors that are the first entries of a rational point. From the list of
/// each shadow comes that of the next one, with one entry more, and the last has the lattice points
/// (projection and lifting, as in Normaliz).
///
/// TooMany only where a shadow has more vectors than the limit. Stopped never comes, and Range tells
/// of 0 stages. It comes only where a number is above `HALF`: the measure of a normal form of the
/// rows, or of a row at one; or, where the rows are bounded, the same of the shadows of the extreme
/// rays, or the measure of a normal form of these at a vector of the shadow before, with 1 in front
/// and 0 after it.
pub fn lift<T: Scalar>(
    alloc: Global,
    rows: &Rows<T>,
    level: &Row<T>,
    rank: usize,
    limit: u32,
) -> Result<Lifted<T>, Work>
    requires widths { Each (HasWidth rank) rows.now }
    requires level { Contains rows.now level.now }
    ensures { MatchResult result (IsLifted limit rank rows.now level.now) (IsLiftRefusal T.HALF limit rank rows.now level.now) }
{
    let rays = match directions_of(alloc, rows, level, rank) {
        Ok(Directions::Rays(rays)) => rays,
        Ok(Directions::Flat(vector)) => return Ok(Lifted::Unbounded(vector)),
        Err(refusal) => return Err(untold(refusal)),
    };
    if rays.len() == 0 {
        return Ok(Lifted::Points(Rows::new(alloc)));
    }
    let mut list = match first_shadow(alloc) {
        Ok(list) => list,
        Err(refusal) => return Err(Work::from(refusal)),
    };
    for place in 1..rays.at(0).len() {
        let forms = match forms_of(alloc, &rays, place + 1) {
            Ok(forms) => forms,
            Err(refusal) => return Err(untold(refusal)),
        };
        list = match lifted(alloc, &forms, &list, limit) {
            Ok(list) => list,
            Err(refusal) => return Err(refusal),
        };
    }
    Ok(Lifted::Points(list))
}

// The list of the vector without entries.
fn first_shadow<T: Scalar>(alloc: Global) -> Result<Rows<T>, NoMemory>
    ensures { IfOk result (λ r. r ≡ [] ∷ []) }
{
    let mut list = Rows::new(alloc);
    match list.push(Row::from_vec(Vec::new(alloc))) {
        Ok(()) => Ok(list),
        Err(refusal) => Err(refusal),
    }
}

/// The refusal of a call that only reckons.
pub(crate) fn untold(refusal: Num) -> Work
    ensures { IsUntold refusal result }
{
    match refusal {
        Num::Range => Work::Range { told: 0 },
        Num::NoMemory => Work::NoMemory,
    }
}
