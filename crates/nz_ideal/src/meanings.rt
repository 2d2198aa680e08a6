//! From a file to its system, whether it has monomials or not.
ghost use Rattle.std.specs.Prelude.{◌≡◌, IsTrue};
ghost use Rattle.nz_ideal.specs.IdealFiles.{has_ideal};
ghost use Rattle.nz_ideal.specs.Meanings.{IsIdealMeaning, IsMeaningOf};

use crate::files::ideal_file;
use crate::rules::first_refusal;
use nz_input::{File, Goals};
use nz_system::{Group, System, SystemRefusal, goal_set, stands, system_of};
use std::alloc::Global;

/// The system of the ideal file of a file with monomials, with the goals of the file and of the words; or the
/// first rule that the file breaks: no more than 960 rows, one `grading`, no item but `monomial_ideal`,
/// `grading` and `ask`, no exponent below 0, and a `grading` where elements of degree 1 are asked.
pub fn ideal_system(alloc: Global, file: &File, words: &Goals) -> Result<System, SystemRefusal>
    requires { IsTrue (has_ideal file.now) }
    ensures { IsIdealMeaning file.now words.now result }
{
    match first_refusal(file, goal_set(&file.goals, words)) {
        Some(refusal) => return Err(refusal),
        None => {}
    }
    match ideal_file(alloc, file) {
        Ok(ideal) => system_of(alloc, &ideal, words),
        Err(_) => Err(SystemRefusal::NoMemory),
    }
}

/// The system of the file, with the goals of the file and of the words; or the first rule of meaning that
/// the file breaks. Where `monomial_ideal` stands in it, both are those of its ideal.
pub fn meaning_of(alloc: Global, file: &File, words: &Goals) -> Result<System, SystemRefusal>
    ensures { IsMeaningOf file.now words.now result }
{
    if stands(Group::MonomialIdeal, &file.items) {
        ideal_system(alloc, file, words)
    } else {
        system_of(alloc, file, words)
    }
}
