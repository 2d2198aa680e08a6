// The extreme rays of a pointed cone that is given by its rows.
ghost use Rattle.std.specs.Prelude.{◌≡◌, length, MatchResult};
ghost use Rattle.std.specs.List.{AllByRecursion as Each};
ghost use Rattle.nz_spec.specs.Vectors.{HasWidth};
ghost use Rattle.nz_linear.specs.Extreme.{IsPointed};
ghost use Rattle.nz_pointed.specs.Pointed.{IsSimplexOf, IsTooLarge};
ghost use Rattle.nz_rays.specs.Rays.{AreRaysOnce};

use crate::Double;
use nz_pointed::{Pointed, Simplex, start};
use nz_vec::{Num, Rows, Scalar};
use std::alloc::Global;

/// The primitive extreme rays of the cone where all rows are at least 0, each once. `simplex` has the
/// first independent rows with their rays. Range comes only where a normal form of the rows, or a row
/// at one, has a measure above `HALF`.
pub fn extreme_rays<T: Scalar>(
    alloc: Global,
    rows: &Rows<T>,
    simplex: &Simplex<T>,
) -> Result<Rows<T>, Num>
    requires widths { Each (HasWidth (length simplex.now.places)) rows.now }
    requires simplex { IsSimplexOf (length simplex.now.places) rows.now simplex.now.places simplex.now.rays }
    ensures { MatchResult result (AreRaysOnce (length simplex.now.places) rows.now) (λ e. e ≡ Num.Range → IsTooLarge T.HALF (length simplex.now.places) rows.now) }
{
    let mut double = match Double::new(alloc, rows, simplex) {
        Ok(double) => double,
        Err(refusal) => return Err(refusal),
    };
    for place in 0..rows.len() {
        if !simplex.places.contains(place) {
            match double.add(alloc, rows.at(place)) {
                Ok(()) => {}
                Err(refusal) => return Err(refusal),
            }
        }
    }
    Ok(double.into_rays())
}

/// The primitive extreme rays of the cone of rows that vanish together only at 0, each once.
pub fn pointed_rays<T: Scalar>(alloc: Global, rows: &Rows<T>, width: usize) -> Result<Rows<T>, Num>
    requires widths { Each (HasWidth width) rows.now }
    requires pointed { IsPointed width rows.now }
    ensures { MatchResult result (AreRaysOnce width rows.now) (λ e. e ≡ Num.Range → IsTooLarge T.HALF width rows.now) }
{
    let simplex = match first_rows(alloc, rows, width) {
        Ok(simplex) => simplex,
        Err(refusal) => return Err(refusal),
    };
    match extreme_rays(alloc, rows, &simplex) {
        Ok(rays) => Ok(rays),
        Err(refusal) => Err(refusal),
    }
}

/// The first independent rows of a pointed cone, with their rays: there is no line.
pub fn first_rows<T: Scalar>(alloc: Global, rows: &Rows<T>, width: usize) -> Result<Simplex<T>, Num>
    requires widths { Each (HasWidth width) rows.now }
    requires pointed { IsPointed width rows.now }
    ensures { MatchResult result (λ s. IsSimplexOf width rows.now s.places s.rays) (λ e. e ≡ Num.Range → IsTooLarge T.HALF width rows.now) }
{
    match start(alloc, rows, width) {
        Ok(answer) => match answer {
            Pointed::Simplex(simplex) => Ok(simplex),
            Pointed::Line(_) => unreachable!(),
        },
        Err(refusal) => Err(refusal),
    }
}
