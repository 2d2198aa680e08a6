// A system in coordinates of its lattice: there its members are the vectors of a cone.
ghost use Rattle.std.specs.Prelude.{◌≡◌, IfOk, IfErr};
ghost use Rattle.nz_measures.specs.Sweeps.{IsSwept};
ghost use Rattle.nz_measures.specs.Reaches.{HasOwnAbove};
ghost use Rattle.nz_frame.specs.Frames.{IsFrame};

use crate::faces::faces_of;
use crate::lattices::lattice;
use nz_sweep::{Basis, all_pulled};
use nz_system::SystemOver;
use nz_vec::{Num, Rows, Scalar};
use std::alloc::Global;

/// A base of the lattice, and the rows on its coordinates.
#[derive(Drop)]
pub struct Frame<T: Scalar> {
    pub base: Basis<T>,
    pub rows: Rows<T>,
}

/// The frame of the system. Range comes only where a number of the sweep of its lattice, a modulus, or the
/// measure of a vector, a form or a form at a vector in the coordinates of the file is above `HALF`.
pub fn frame_of<T: Scalar>(alloc: Global, system: &SystemOver<T>) -> Result<Frame<T>, Num>
    ensures frame { IfOk result (λ f. IsFrame system.now.system f.base f.rows) }
    ensures swept { IfOk result (λ f. IsSwept system.now.system f.base) }
    ensures cause { IfErr result (λ e. e ≡ Num.Range → HasOwnAbove system.now.system T.HALF) }
{
    system.kept();
    let faces = match faces_of(alloc, system) {
        Ok(faces) => faces,
        Err(refusal) => return Err(refusal),
    };
    let base = match lattice(alloc, system, &faces.equations) {
        Ok(base) => base,
        Err(refusal) => return Err(refusal),
    };
    match all_pulled(alloc, &base, &faces.rows) {
        Ok(rows) => Ok(Frame { base, rows }),
        Err(refusal) => Err(refusal),
    }
}
