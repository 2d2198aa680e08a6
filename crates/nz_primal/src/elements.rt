// The irreducible elements, from a cover in second coordinates.
ghost use Rattle.std.specs.Prelude.{◌≡◌, ◌≤◌, None, ℕ, ℤ, List, map, length, IfOk, IfErr, MatchResult};
ghost use Rattle.std.specs.List.{AllByRecursion as Each};
ghost use Rattle.std.specs.List.Sorted.{IsPermutation};
ghost use Rattle.nz_spec.specs.Vectors.{HasWidth, combination};
ghost use Rattle.nz_spec.specs.Order.{IsLexBefore, IsListOf};
ghost use Rattle.nz_spec.specs.Monoids.{IsIrreducible};
ghost use Rattle.nz_linear.specs.Cones.{IsInRows};
ghost use Rattle.nz_degree.specs.Degrees.{IsInOrder};
ghost use Rattle.nz_sweep.specs.Bases.{IsBase};
ghost use Rattle.nz_sweep.specs.Lists.{LacksVector};
ghost use Rattle.nz_cover.specs.Placing.{IsPlaced};
ghost use Rattle.nz_primal.specs.Parts.{IsSecondCone, IsVectorOf, IsWalkRefusal, IsFirstRefusal, WhereRange, IsElementCause};

use crate::candidates::candidates;
use crate::keys::ungraded;
use crate::second::Second;
use nz_cover::Cover;
use nz_degree::sort;
use nz_reducer::irreducibles;
use nz_sweep::{Basis, all_vectors};
use nz_vec::{Num, Rows, Scalar, Work};
use std::alloc::Global;

/// The vectors whose coordinates are the irreducible elements in second coordinates, lexicographically
/// and each once. They are no more than the limit.
pub(crate) fn elements<T: Scalar>(
    alloc: Global,
    second: &Second<T>,
    cover: &Cover<T>,
    limit: u32,
) -> Result<Rows<T>, Work>
    requires base { IsBase second.now.base }
    requires cone { IsSecondCone (length second.now.base.vectors) second.now.rows second.now.rays }
    requires placed { IsPlaced (length second.now.base.vectors) second.now.rays cover.now.simplices cover.now.forms }
    ensures lists { MatchResult result (IsListOf IsLexBefore (IsVectorOf second.now.base (IsIrreducible (IsInRows (length second.now.base.vectors) second.now.rows)))) (IsWalkRefusal limit second.now.rays cover.now.simplices) }
    ensures within { IfOk result (λ list. length list ≤ limit) }
    ensures cause { IfErr result (WhereRange (IsElementCause T.HALF T.fits second.now.base second.now.rays second.now.rows cover.now.simplices cover.now.forms)) }
{
    let list = match candidates(alloc, &second.rays, cover, limit) {
        Ok(list) => list,
        Err(refusal) => return Err(refusal),
    };
    let kept = match irreducibles(alloc, &list, &second.rows) {
        Ok(kept) => kept,
        Err(refusal) => return Err(walk_refusal(refusal)),
    };
    if kept.len() > limit as usize {
        return Err(Work::TooMany);
    }
    match brought_back(alloc, &second.base, &kept) {
        Ok(list) => Ok(list),
        Err(refusal) => Err(walk_refusal(refusal)),
    }
}

// A refusal of one reckoning as that of the walks.
fn walk_refusal(refusal: Num) -> Work
    ensures refused { (limit : ℕ) (rays : List (List ℤ)) (simplices : List (List ℕ)) → IsWalkRefusal limit rays simplices result }
    ensures same { IsFirstRefusal refusal 0 result }
{
    match refusal {
        Num::Range => Work::Range { told: 0 },
        Num::NoMemory => Work::NoMemory,
    }
}

// The vectors with these coordinates, lexicographically.
fn brought_back<T: Scalar>(
    alloc: Global,
    base: &Basis<T>,
    coordinates: &Rows<T>,
) -> Result<Rows<T>, Num>
    requires widths { Each (HasWidth (length base.now.vectors)) coordinates.now }
    ensures same { IfOk result (IsPermutation (map (λ c. combination base.now.width c base.now.vectors) coordinates.now)) }
    ensures order { IfOk result (IsInOrder None) }
    ensures cause { IfErr result (λ e. e ≡ Num.Range → LacksVector T.fits base.now coordinates.now) }
{
    let mut list = match all_vectors(alloc, base, coordinates) {
        Ok(list) => list,
        Err(refusal) => return Err(refusal),
    };
    match sort(alloc, &mut list, ungraded(coordinates)) {
        Ok(()) => Ok(list),
        Err(refusal) => Err(refusal),
    }
}
