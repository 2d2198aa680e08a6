// The extreme generators of a pointed cone, in the order of the values of forms.
ghost use Rattle.std.specs.Prelude.{◌≡◌, IfOk, IfErr, length};
ghost use Rattle.std.specs.List.{AllByRecursion as Each};
ghost use Rattle.nz_spec.specs.Vectors.{HasWidth};
ghost use Rattle.nz_pointed.specs.Pointed.{IsSimplexOf, IsTooLarge};
ghost use Rattle.nz_rays.specs.Rays.{AreRaysOnce};
ghost use Rattle.nz_primal.specs.Lists.{AreSeparating, AreGenerators};
ghost use Rattle.nz_primal.specs.Parts.{IsGeneratorCause};

use crate::keys::in_order;
use nz_pointed::Simplex;
use nz_rays::extreme_rays;
use nz_vec::{Num, Rows, Scalar};
use std::alloc::Global;

/// The extreme generators, increasing by the values of the forms of `order`, the first form first.
pub(crate) fn generators<T: Scalar>(
    alloc: Global,
    rows: &Rows<T>,
    simplex: &Simplex<T>,
    order: &Rows<T>,
) -> Result<Rows<T>, Num>
    requires widths { Each (HasWidth (length simplex.now.places)) rows.now }
    requires simplex { IsSimplexOf (length simplex.now.places) rows.now simplex.now.places simplex.now.rays }
    requires order { AreSeparating (length simplex.now.places) order.now }
    ensures generators { IfOk result (λ r. AreGenerators (length simplex.now.places) rows.now order.now r) }
    ensures rays { IfOk result (λ r. AreRaysOnce (length simplex.now.places) rows.now r) }
    ensures cause { IfErr result (λ e. e ≡ Num.Range → IsGeneratorCause T.HALF T.fits (length simplex.now.places) rows.now order.now) }
{
    let rays = match extreme_rays(alloc, rows, simplex) {
        Ok(rays) => rays,
        Err(refusal) => return Err(refusal),
    };
    match in_order(alloc, &rays, simplex.places.len(), order) {
        Ok(rays) => Ok(rays),
        Err(refusal) => Err(refusal),
    }
}
