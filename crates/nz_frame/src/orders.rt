// The forms by whose values coordinates stand in the order of their vectors.
ghost use Rattle.std.specs.Prelude.{◌≡◌, IfOk, IfErr, IfSome};
ghost use Rattle.nz_spec.specs.Vectors.{HasWidth, unit_vectors};
ghost use Rattle.nz_sweep.specs.Lists.{LacksPull};
ghost use Rattle.nz_measures.specs.Pools.{order_from};
ghost use Rattle.nz_frame.specs.Frames.{order_forms};

use nz_sweep::{Basis, all_pulled};
use nz_vec::{NoMemory, Num, Row, Rows, Scalar, units};
use std::alloc::Global;

/// The grading, where it is given, and then the entries of a vector, as forms on its coordinates. Range
/// comes only where one of them has a value at a vector of the base that is no value of the type.
pub fn order_forms<T: Scalar>(
    alloc: Global,
    base: &Basis<T>,
    width: usize,
    grading: &Option<Row<T>>,
) -> Result<Rows<T>, Num>
    requires width { base.now.width ≡ width }
    requires grading { IfSome grading.now (HasWidth width) }
    ensures pulled { IfOk result (λ r. r ≡ order_forms width base.now.vectors grading.now) }
    ensures cause { IfErr result (λ e. e ≡ Num.Range → LacksPull T.fits base.now (order_from grading.now (unit_vectors width))) }
{
    let forms = match file_forms(alloc, width, grading) {
        Ok(forms) => forms,
        Err(refusal) => return Err(Num::from(refusal)),
    };
    match all_pulled(alloc, base, &forms) {
        Ok(pulled) => Ok(pulled),
        Err(refusal) => Err(refusal),
    }
}

// The grading, where it is given, and then the unit forms.
fn file_forms<T: Scalar>(
    alloc: Global,
    width: usize,
    grading: &Option<Row<T>>,
) -> Result<Rows<T>, NoMemory>
    ensures { IfOk result (λ r. r ≡ order_from grading.now (unit_vectors width)) }
{
    let mut forms = Rows::new(alloc);
    match grading {
        Some(grading) => forms.push(grading.try_copy()?)?,
        None => {}
    }
    let units = Rows::from_vec(units(alloc, width)?);
    Rows::joined(forms, &units)
}
