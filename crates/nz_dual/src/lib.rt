//! The dual algorithm: the irreducible vectors of a cone, as its rows are added one by one.
//! Contract: after each row the list is exactly the irreducibles of the whole vectors at which all rows so far are at least 0.
//! Below stand the simplex of `nz_pointed`, the walk of `nz_classes`, the tables of `nz_reducer`, the lemmas on inserted rows of `nz_order`, and the watch of `nz_watch`.
//! `nz_solve` solves the files of dual mode with it.
//! Start reading at `specs/DualStages.antt`, then `Stage::insert` and `dual`.
#![tactic(auto)]

mod classes;
mod closing;
mod levels;
mod ordering;
mod pairs;
mod running;
mod sides;
mod stages;
mod starting;
mod sums;
mod values;

pub use running::dual;
pub use stages::Stage;
