//! Degrees and levels of elements: whether all degrees are positive, their denominator, the elements of degree 1, the order by degree, and the elements of level 0 and of level 1.
//! Its contract: `check` names the first element of degree 0 or less, `denominator` gives the greatest common divisor of the degrees, `degree_one`, `split` and `split_extreme` pick in the order of the list, and `sort` leaves the same rows in order.
//! Below it stand the definitions, the lemmas on orders of `nz_order` and on denominators of `nz_further`, and the rows of `nz_vec`.
//! `nz_solve` puts each list into this order, refuses a grading that is not positive, and splits the elements of a file with a level.
//! Start with `specs/Degrees.antt`, then `check`; for the levels with `specs/Levels.antt`, then `split`.
#![tactic(auto)]

mod checking;
mod denominators;
mod elements;
mod levels;
mod picking;
mod positivity;
mod ranked;
mod sorting;

pub use checking::check;
pub use denominators::denominator;
pub use elements::degrees_are_elements;
pub use levels::{ExtremeLevels, Levels, levels_are_elements, split, split_extreme};
pub use picking::degree_one;
pub use positivity::Positivity;
pub use sorting::sort;
