ghost use Rattle.std.specs.Prelude.{◌≡◌, ◌<◌, None, MatchResult};
ghost use Rattle.std.specs.List.{AllByRecursion as Each};
ghost use Rattle.nz_spec.specs.Vectors.{HasWidth};
ghost use Rattle.nz_spec.specs.Order.{IsListOf};
ghost use Rattle.nz_spec.specs.Forms.{IsOtherColumn, AreSupportForms, IsDescription, DescribeCone};
ghost use Rattle.nz_pointed.specs.Pointed.{IsTooLarge};

use crate::facets::facet_rows;
use nz_degree::sort;
use nz_pointed::{Equations, equations_of};
use nz_rays::pointed_rays;
use nz_vec::{Num, Places, Row, Rows, Scalar};
use std::alloc::Global;

/// A cone by forms: its vectors are those at which each support form is at least 0 and each equation
/// is 0.
#[derive(Drop)]
pub struct Description<T: Scalar> {
    /// The support forms, lexicographically. Each is 0 on a facet of the cone, and none can be left out.
    pub support: Rows<T>,
    /// The equations, one for each column that is no key column, by increasing column.
    pub equations: Rows<T>,
}

/// The support forms and the equations of the generators, vectors of this width. The support forms
/// are the extreme rays of the dual cone in normal form, so they come by double description with the
/// generators as rows. Range comes only where a normal form of the generators has a measure above
/// `HALF`, which is the sum of the absolute values of its entries, or such a form at a generator has
/// one, which is that of the products.
pub fn describe<T: Scalar>(
    alloc: Global,
    width: usize,
    gens: &Rows<T>,
) -> Result<Description<T>, Num>
    requires { Each (HasWidth width) gens.now }
    ensures { MatchResult result (λ d. IsDescription width gens.now d.support d.equations × DescribeCone width gens.now d.support d.equations) (λ e. e ≡ Num.Range → IsTooLarge T.HALF width gens.now) }
{
    let equations = match equations_of(alloc, gens, width) {
        Ok(equations) => equations,
        Err(refusal) => return Err(refusal),
    };
    let support = match support_forms(alloc, width, gens, &equations.columns) {
        Ok(support) => support,
        Err(refusal) => return Err(refusal),
    };
    Ok(Description {
        support,
        equations: equations.forms,
    })
}

// The support forms, where these columns are those that are no key column.
fn support_forms<T: Scalar>(
    alloc: Global,
    width: usize,
    gens: &Rows<T>,
    columns: &Places,
) -> Result<Rows<T>, Num>
    requires widths { Each (HasWidth width) gens.now }
    requires columns { IsListOf ◌<◌ (IsOtherColumn width gens.now) columns.now }
    ensures { MatchResult result (AreSupportForms width gens.now) (λ e. e ≡ Num.Range → IsTooLarge T.HALF width gens.now) }
{
    let rows = match facet_rows(alloc, width, columns, gens) {
        Ok(rows) => rows,
        Err(refusal) => return Err(refusal),
    };
    let mut support = match pointed_rays(alloc, &rows, width) {
        Ok(support) => support,
        Err(refusal) => return Err(refusal),
    };
    match sort(alloc, &mut support, ungraded(gens)) {
        Ok(()) => Ok(support),
        Err(refusal) => Err(refusal),
    }
}

// No grading: the order is by the entries alone.
fn ungraded<T: Scalar>(_gens: &Rows<T>) -> Option<&Row<T>>
    ensures { result ≡ None }
{
    None
}
