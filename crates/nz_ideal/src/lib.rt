//! Integral closures of monomial ideals: the meaning of a file with `monomial_ideal`, and with it that of every file.
//! The one contract: `meaning_of` gives exactly the system of the file, that of its ideal file where it has monomials, where every rule of meaning is met; and else the first rule that fails, with its place.
//! Below stand the files of `nz_input`, the meaning of a file without monomials in `nz_system`, and the laws of integral closures in `nz_further`.
//! `nz_run` stands on it: it takes the meaning of each file from here.
//! Begin with `specs/IdealFiles.antt`, then `specs/IdealRules.antt`, `specs/Meanings.antt` and `specs/Laws.antt`.
#![tactic(auto)]

mod files;
mod laws;
mod meanings;
mod rules;

pub use laws::closures_are_answered;
pub use meanings::{ideal_system, meaning_of};
pub use nz_vec::NoMemory;
