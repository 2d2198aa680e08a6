//! The walk through the classes of a simplex, which lists the points of a half-open parallelepiped.
//! Contract: `walk` lists every whole vector of the half-open parallelepiped, each once and in order, or says that there are more than a limit.
//! Below stand the rows of `nz_vec`, the linear algebra of `nz_linear`, the lemmas on sorting of `nz_order` and the kit's `indexmap`.
//! The engine of covers walks each simplex of a cover, and the engine of stages begins with one.
//! Start reading at `specs/Walks.antt`, then `walk`.
#![tactic(auto)]

mod balance;
mod found;
mod neighbours;
mod steps;
mod values;
mod walking;
mod zero;

pub use walking::walk;
