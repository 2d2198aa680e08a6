use nz_vec::{Constraints, Rows};
use std::marker::Model;

/// A lattice and rows: the vectors of `width` entries that meet the constraints, of which none is an
/// inequality, a base of these vectors, and the rows, which are at least 0 at the vectors of the monoid.
#[derive(Drop)]
pub struct Monoid {
    pub width: u32,
    pub constraints: Constraints<i128>,
    pub base: Rows<i128>,
    pub rows: Rows<i128>,
}

impl Model for Monoid {
    ghost use Rattle.std.specs.Prelude.{map};
    ghost use Rattle.nz_cert.specs.Monoids.{MonoidData, IsMonoid};

    ghost Value = { MonoidData };

    ghost view = { λ m. record { width = m.width; constraints = m.constraints; base = m.base; rows = m.rows } };

    ghost invariant = { λ m. IsMonoid (record { width = m.width; constraints = m.constraints; base = m.base; rows = m.rows }) };
}
