//! The test for lines: whether rows vanish together at a nonzero vector.
//! Its contract: `start` answers a line exactly where they do, and else the first independent rows with their rays.
//! Below it stand the rows of `nz_vec` and the lemmas on elimination of `nz_linear`.
//! Double description, covers and the dual algorithm begin with its answer.
//! Start reading at `specs/Pointed.antt`, then `start`.
#![tactic(auto)]

mod clearing;
mod elimination;
mod signs;
mod starting;

pub use signs::{leads_positive, opposite};
pub use starting::{Equations, Pointed, Simplex, equations_of, start};
