//! The meaning of an input file: the system of constraints and generators that it defines, and what is asked of it.
//! The one contract: `system_of` gives exactly the system of the file where every rule of meaning is met, and else the first rule that fails, with its place.
//! Below stand the files of `nz_input` and the rows of `nz_vec`.
//! `nz_run` refuses files without meaning by it, the engines take their rows from its systems, and `nz_ideal` leads the files of monomial ideals to it.
//! Begin with `specs/Contributions.antt`, the table of what a row of each kind gives, then `specs/Meaning.antt` and `specs/Rules.antt`.
#![tactic(auto)]

mod asked;
mod contribution;
mod draft;
mod groups;
mod meaning;
mod narrowing;
mod refusal;
mod rules;
mod system;

pub use asked::{GoalSet, goal_set};
pub use groups::{Group, occurs, stands};
pub use meaning::system_of;
pub use narrowing::narrow_system;
pub use nz_vec::NoMemory;
pub use refusal::{MeaningFault, SystemRefusal};
pub use system::{System, SystemOver};
