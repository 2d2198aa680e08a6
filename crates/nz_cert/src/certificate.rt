use nz_vec::{Places, RowLists, Rows};
use std::marker::Model;

/// Lists from which anyone can check which elements of a monoid are irreducible: those of a dual run,
/// which adds one row after the other. Each vector has `width` entries, from -2^62 to 2^62; a list
/// has at most 250,000 vectors. In the words of a contract `plus` is `above`, and `minus` is `beneath`.
#[derive(Drop)]
pub struct Certificate {
    /// The entries of a vector, 1 to 65.
    pub width: u32,
    /// How many rows are independent, at most `width`.
    pub rank: u32,
    /// The order in which rows are added: each place of a row once, from 1.
    pub order: Places,
    /// For each of the first `rank` rows the vector at which it is positive, and the others are 0.
    pub rays: Rows<i128>,
    /// The vectors of the box of the rays.
    pub points: Rows<i128>,
    /// The list of the first `rank` rows.
    pub first: Rows<i128>,
    /// For each later row the list of the vectors at which it and the earlier ones are at least 0.
    pub plus: RowLists<i128>,
    /// For each later row the list of those at which it is at most 0, and the earlier ones are at least 0.
    pub minus: RowLists<i128>,
}

impl Model for Certificate {
    ghost use Rattle.nz_further.specs.Certificates.{CertificateData, HasShape};

    ghost Value = { CertificateData };

    ghost view = { λ c. record { width = c.width; rank = c.rank; order = c.order; rays = c.rays; points = c.points; first = c.first; above = c.plus; beneath = c.minus } };

    ghost invariant = { λ c. HasShape (record { width = c.width; rank = c.rank; order = c.order; rays = c.rays; points = c.points; first = c.first; above = c.plus; beneath = c.minus }) };
}
