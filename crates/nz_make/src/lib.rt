//! A file that is made and not read, whose answer is known for every size: the points of a square.
//! Its contract: `made` gives exactly the stated file, and the laws say which vectors its irreducible elements are, how many, and their sum, and what its crowd is in each mode.
//! Below it stand the files of `nz_input` and, for the laws, the meaning of a file in `nz_system` and the crowd in `nz_measures`.
//! `nz_run` takes such a file in the place of an input where the words say `--Make`, and writes what the law says of it to the console.
//! Start with `specs/Squares.antt`, then `specs/Laws.antt` and `specs/Crowds.antt`.
#![tactic(auto)]

mod laws;
mod making;

pub use laws::{crowds_are_known, irreducibles_are_points};
pub use making::made;
pub use nz_vec::NoMemory;
