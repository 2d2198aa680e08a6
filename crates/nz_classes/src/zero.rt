// The zero vector.
ghost use Rattle.std.specs.Prelude.{◌≡◌, IfOk};
ghost use Rattle.nz_linear.specs.Echelon.{unit_at};

use nz_vec::{NoMemory, Row, Scalar, unit};
use std::alloc::Global;

/// The zero vector.
pub(crate) fn zero<T: Scalar>(alloc: Global, width: usize) -> Result<Row<T>, NoMemory>
    ensures { IfOk result (λ z. z ≡ unit_at width width) }
{
    unit(alloc, width, width)
}
