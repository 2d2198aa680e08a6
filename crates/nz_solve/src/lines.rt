// A line in coordinates of a base as a refusal.
ghost use Rattle.std.specs.Prelude.{◌≡◌, length};
ghost use Rattle.nz_spec.specs.Vectors.{IsNonzero};
ghost use Rattle.nz_frame.specs.Frames.{vector_at};
ghost use Rattle.nz_solve.specs.Parts.{IsLineRefusal};

use crate::refusal::{InnerRefusal, counted};
use nz_frame::least_line;
use nz_sweep::Basis;
use nz_vec::{Row, Scalar};
use std::alloc::Global;

/// The refusal of the line with these coordinates, after so many stages were told before.
pub(crate) fn line_refusal<T: Scalar>(
    alloc: Global,
    base: &Basis<T>,
    line: &Row<T>,
    told: u64,
) -> InnerRefusal
    requires width { length line.now ≡ length base.now.vectors }
    requires nonzero { IsNonzero (vector_at base.now line.now) }
    ensures { IsLineRefusal T.fits told base.now line.now result }
{
    match least_line(alloc, base, line) {
        Ok(vector) => InnerRefusal::Line(vector),
        Err(refusal) => counted(refusal, told),
    }
}
