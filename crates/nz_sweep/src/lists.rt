// Lists of vectors and of forms, to and from the coordinates of a base.
ghost use Rattle.std.specs.Prelude.{◌≡◌, map, length, MatchResult};
ghost use Rattle.std.specs.List.{AllByRecursion as Each};
ghost use Rattle.nz_spec.specs.Vectors.{combination, HasWidth};
ghost use Rattle.nz_linear.specs.Coordinates.{in_coordinates};
ghost use Rattle.nz_sweep.specs.Lists.{LacksPull, LacksVector};

use crate::Basis;
use nz_vec::{Num, Rows, Scalar};
use std::alloc::Global;

/// The vectors with these coordinates. Range comes only where for one of them a product, or a sum of
/// the first products for one entry, is no value of the type.
pub fn all_vectors<T: Scalar>(
    alloc: Global,
    base: &Basis<T>,
    coordinates: &Rows<T>,
) -> Result<Rows<T>, Num>
    requires { Each (HasWidth (length base.now.vectors)) coordinates.now }
    ensures { MatchResult result (λ r. r ≡ map (λ c. combination base.now.width c base.now.vectors) coordinates.now) (λ e. e ≡ Num.Range → LacksVector T.fits base.now coordinates.now) }
{
    let mut list = Rows::new(alloc);
    for place in 0..coordinates.len() {
        let vector = match base.vector(alloc, coordinates.at(place)) {
            Ok(vector) => vector,
            Err(refusal) => return Err(refusal),
        };
        match list.push(vector) {
            Ok(()) => {}
            Err(refusal) => return Err(Num::from(refusal)),
        }
    }
    Ok(list)
}

/// The forms on coordinates. Range comes only where for one of them a product, or a sum of the first
/// products for one value, is no value of the type.
pub fn all_pulled<T: Scalar>(
    alloc: Global,
    base: &Basis<T>,
    forms: &Rows<T>,
) -> Result<Rows<T>, Num>
    requires { Each (HasWidth base.now.width) forms.now }
    ensures { MatchResult result (λ r. r ≡ map (λ h. in_coordinates base.now.vectors h) forms.now) (λ e. e ≡ Num.Range → LacksPull T.fits base.now forms.now) }
{
    let mut list = Rows::new(alloc);
    for place in 0..forms.len() {
        let pulled = match base.pull(alloc, forms.at(place)) {
            Ok(pulled) => pulled,
            Err(refusal) => return Err(refusal),
        };
        match list.push(pulled) {
            Ok(()) => {}
            Err(refusal) => return Err(Num::from(refusal)),
        }
    }
    Ok(list)
}
