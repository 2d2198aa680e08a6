//! Lattices by a base: the vectors at which equations and congruences hold are the whole sums of independent vectors.
//! Its contract: a `Basis` is seen as its width, its independent vectors and their coordinate forms; a cut leaves exactly the vectors at which it holds, a vector has coordinates exactly if it is inside, and Range comes only where a number of the stated steps is large.
//! Below it stand the rows of `nz_vec`, the lemmas on bases of `nz_linear` and those on causes of `nz_range`.
//! `nz_run` and the engines that reckon in coordinates stand above.
//! Start reading at `specs/Bases.antt` and `specs/Cuts.antt`, then `Basis`; `specs/Numbers.antt` has the causes.
#![tactic(auto)]

mod basis;
mod bottom;
mod clearing;
mod constraining;
mod coordinates;
mod cutting;
mod floors;
mod gathering;
mod generating;
mod inside;
mod lists;
mod pivots;
mod terms;
mod valued;

pub use basis::Basis;
pub use generating::{Taken, take_out};
pub use lists::{all_pulled, all_vectors};
