//! From generators to constraints: the support forms and the equations of a cone.
//! Its contract: `describe` gives exactly these, in normal form, and they describe the cone; `constraints_of` lists them, and last those of a lattice.
//! Below it stand the equations of `nz_pointed`, the rays of `nz_rays`, the lattices of `nz_sweep` and the lemmas on support forms of `nz_linear`.
//! `nz_frame` turns the generators of a system into constraints with it, and `nz_solve` describes the extreme generators.
//! Start reading at `describe`, then `proofs/NormalLemmas.antt`.
#![tactic(auto)]

mod constraining;
mod describing;
mod facets;

pub use constraining::{append_equations, append_inequalities, cone_constraints, constraints_of};
pub use describing::{Description, describe};
