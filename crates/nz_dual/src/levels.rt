// Vectors at which the new row is 0: both sides may hold them, with one list of values.
ghost use Rattle.std.specs.Prelude.{◌≡◌, length, map, IfOk, IfSome};
ghost use Rattle.std.specs.Rc.{rc_slice_items};
ghost use Rattle.std.specs.List.{AllByRecursion as Each};
ghost use Rattle.nz_spec.specs.Vectors.{HasWidth};
ghost use Rattle.nz_dual.specs.Levels.{IsLevel};

use crate::values::values_before;
use nz_vec::{NoMemory, Row, Rows, Scalar, is_zero};
use std::alloc::Global;
use std::rc::RcSlice;

/// The values of the forms of both sides at a vector, as a row, and as the slice that both tables share.
#[derive(Drop)]
pub(crate) struct Level<T: Scalar> {
    pub(crate) values: Row<T>,
    pub(crate) slice: RcSlice<T>,
}

/// The values at a vector at which both last forms are 0. None where one of them is not, and where a
/// value is not known or there is no memory: the sides then compute the values for themselves.
pub(crate) fn level_of<T: Scalar>(
    alloc: Global,
    rows: &Rows<T>,
    above: &Row<T>,
    below: &Row<T>,
    x: &Row<T>,
) -> Option<Level<T>>
    requires rows { Each (HasWidth (length x.now)) rows.now }
    requires above { length above.now ≡ length x.now }
    requires below { length below.now ≡ length x.now }
    ensures { IfSome result (λ l. IsLevel rows.now above.now below.now x.now l.values (map T.integer (rc_slice_items l.slice))) }
{
    let height = match above.dot(x) {
        Some(height) => height,
        None => return None,
    };
    let depth = match below.dot(x) {
        Some(depth) => depth,
        None => return None,
    };
    if !is_zero(height) {
        return None;
    }
    if !is_zero(depth) {
        return None;
    }
    let values = match values_before(alloc, rows, x, height) {
        Ok(values) => values,
        Err(_) => return None,
    };
    match shared(&values) {
        Ok(slice) => Some(Level { values, slice }),
        Err(_) => None,
    }
}

/// The values as a slice that can be shared.
pub(crate) fn shared<T: Scalar>(values: &Row<T>) -> Result<RcSlice<T>, NoMemory>
    ensures { IfOk result (λ s. map T.integer (rc_slice_items s) ≡ values.now) }
{
    let copy = values.try_copy()?;
    match RcSlice::from_vec(copy.into_vec()) {
        Ok(slice) => Ok(slice),
        Err(_) => Err(NoMemory),
    }
}
