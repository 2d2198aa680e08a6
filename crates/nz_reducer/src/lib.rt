//! Which of some vectors no other one reduces, and tables of value lists that find what reduces a vector.
//! Contract: `first` gives the least place whose entry is at most the given values, and a table by sums compares none with a larger sum;
//! `irreducibles` lists exactly the nonzero candidates that no other one reduces, each once and in order.
//! Below stand the lemmas of `nz_order` and the rows of `nz_vec`; the engines of covers and of stages stand above.
//! Start reading at `irreducibles`, and at the trait `Table`.
#![tactic(auto)]

mod degree_table;
mod irreducible;
mod levels;
mod list_table;
mod marks;
mod recent;
mod sums;
mod table;
mod valued;

pub use degree_table::DegreeTable;
pub use irreducible::irreducibles;
pub use list_table::ListTable;
pub use table::Table;
