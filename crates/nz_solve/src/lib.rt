//! Solving a system: its irreducible elements by level and degree, its extreme rays, their support forms, a cover by simplices, and the replies to asked vectors.
//! Its contract: `solve` answers exactly what the goals ask of any system, in both modes, or why there is no answer; `modes_agree` says that both modes give one outcome.
//! Below it stand the coordinates and constraints of `nz_frame`, the algorithms of `nz_primal` and `nz_dual`, the levels and degrees of `nz_degree`, and the replies of `nz_member`.
//! `nz_run` calls it between the meaning of a file and the output text.
//! Start reading at `specs/Solutions.antt`, then `solve`.
#![tactic(auto)]

mod by_dual;
mod by_primal;
mod divided;
mod elements;
mod laws;
mod lines;
mod lists;
mod outcomes;
mod refusal;
mod replies;
mod solving;
mod widening;

pub use laws::modes_agree;
pub use refusal::{InnerRefusal, SolveRefusal};
pub use solving::{solve, solve_in};
