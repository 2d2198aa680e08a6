//! The primal run: the irreducible elements of the whole vectors at which rows are at least 0, by a cover of simplices.
//! Its contract: `primal` lists exactly the irreducible elements, exactly their extreme generators, and a good cover of these.
//! Below it stand double description, the sweep, placing, the walk through classes and the reducer, each by its contract.
//! `nz_solve` solves the files of primal mode with it.
//! Start reading at `specs/Lists.antt`, then `primal`.
#![tactic(auto)]

mod candidates;
mod elements;
mod generators;
mod keys;
mod running;
mod second;

pub use running::{PrimalLists, primal};
