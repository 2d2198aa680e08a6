// Whether rows are bounded, and then their extreme rays.
ghost use Rattle.std.specs.Prelude.{◌≡◌, ◌≢◌, ◌<◌, ℕ, pos, length, Contains, IfOk, IfErr, MatchOption, MatchResult, slice_index_or, []};
ghost use Rattle.std.specs.List.{AllByRecursion as Each};
ghost use Rattle.nz_spec.specs.Vectors.{HasWidth, entry};
ghost use Rattle.nz_range.specs.Measures.{SomeLargeAt};
ghost use Rattle.nz_pointed.specs.Pointed.{IsSimplexOf, IsTooLarge};
ghost use Rattle.nz_lift.specs.Directions.{headed, AreDirections, IsFlatPlace};

use crate::vectors::headed;
use nz_pointed::{Pointed, Simplex, start};
use nz_rays::extreme_rays;
use nz_vec::{Num, Row, Rows, Scalar, is_zero};
use std::alloc::Global;

/// In which directions the vectors lie at which rows are at least 0.
#[derive(Drop)]
pub(crate) enum Directions<T: Scalar> {
    /// A primitive vector of level 0: a line, where there is one, and else an extreme ray.
    Flat(Row<T>),
    /// The extreme rays with their levels, which are positive, in front.
    Rays(Rows<T>),
}

/// A direction of level 0, or else the extreme rays. Range comes only where a normal form of the rows,
/// or a row at one, has a measure above `HALF`.
pub(crate) fn directions_of<T: Scalar>(
    alloc: Global,
    rows: &Rows<T>,
    level: &Row<T>,
    rank: usize,
) -> Result<Directions<T>, Num>
    requires widths { Each (HasWidth rank) rows.now }
    requires level { Contains rows.now level.now }
    ensures { MatchResult result (AreDirections rank rows.now level.now) (λ e. e ≡ Num.Range → IsTooLarge T.HALF rank rows.now) }
{
    match start(alloc, rows, rank) {
        Ok(answer) => match answer {
            Pointed::Line(line) => Ok(Directions::Flat(line)),
            Pointed::Simplex(simplex) => ray_directions(alloc, rows, level, &simplex),
        },
        Err(refusal) => Err(refusal),
    }
}

// The same of rows that vanish together only at 0.
fn ray_directions<T: Scalar>(
    alloc: Global,
    rows: &Rows<T>,
    level: &Row<T>,
    simplex: &Simplex<T>,
) -> Result<Directions<T>, Num>
    requires widths { Each (HasWidth (length simplex.now.places)) rows.now }
    requires simplex { IsSimplexOf (length simplex.now.places) rows.now simplex.now.places simplex.now.rays }
    requires level { Contains rows.now level.now }
    ensures { MatchResult result (AreDirections (length simplex.now.places) rows.now level.now) (λ e. e ≡ Num.Range → IsTooLarge T.HALF (length simplex.now.places) rows.now) }
{
    let rays = match extreme_rays(alloc, rows, simplex) {
        Ok(rays) => rays,
        Err(refusal) => return Err(refusal),
    };
    let list = match with_levels(alloc, level, &rays) {
        Ok(list) => list,
        Err(refusal) => return Err(refusal),
    };
    match first_flat(&list) {
        Some(place) => match rays.at(place).try_copy() {
            Ok(ray) => Ok(Directions::Flat(ray)),
            Err(refusal) => Err(Num::from(refusal)),
        },
        None => Ok(Directions::Rays(list)),
    }
}

// Each vector with its level in front.
fn with_levels<T: Scalar>(alloc: Global, level: &Row<T>, vectors: &Rows<T>) -> Result<Rows<T>, Num>
    requires { Each (HasWidth (length level.now)) vectors.now }
    ensures { MatchResult result (λ r. r ≡ headed level.now vectors.now) (λ e. e ≡ Num.Range → SomeLargeAt T.HALF (λ f. f ≡ level.now) (Contains vectors.now)) }
{
    let mut list = Rows::new(alloc);
    for place in 0..vectors.len() {
        let vector = vectors.at(place);
        let value = match level.dot(vector) {
            Some(value) => value,
            None => return Err(Num::Range),
        };
        let row = match headed(alloc, value, vector) {
            Ok(row) => row,
            Err(refusal) => return Err(Num::from(refusal)),
        };
        match list.push(row) {
            Ok(()) => {}
            Err(refusal) => return Err(Num::from(refusal)),
        }
    }
    Ok(list)
}

// The place of the first vector that begins with 0.
fn first_flat<T: Scalar>(list: &Rows<T>) -> Option<usize>
    requires { Each (λ v. 0 < length v) list.now }
    ensures { MatchOption result (Each (λ v. entry v 0 ≢ pos 0) list.now) (IsFlatPlace list.now) }
{
    for place in 0..list.len() {
        if is_zero(list.at(place).at(0)) {
            return Some(place);
        }
    }
    None
}
