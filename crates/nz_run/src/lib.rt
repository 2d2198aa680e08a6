//! The top call: reads the words and the file, solves it, stores the text and writes the status line.
//! Its contract: when `run` ends with Done, the stored text has exactly what file and words ask of the monoid or the polyhedron that
//! the file defines; each other status has its stated cause, and leaves the files as they were; both modes store one text.
//! Below it stand the words, the grammar, the made files, the meaning, the solver, the output text and the outside. The program `nmz` calls it.
//! Start with `specs/Runs.antt`, then `run`.
#![tactic(auto)]

mod converting;
mod finding;
mod kinds;
mod laws;
mod listing;
mod pointing;
mod refusals;
mod solving;
mod status;
mod status_lines;
mod top;

pub use kinds::RunKind;
pub use laws::{
    closures_are_stored, conversions_are_answered, conversions_keep_the_file,
    listings_are_answered, modes_give_one_text, points_are_answered, runs_give_one_text,
    unbounded_are_answered, valid_runs_are_answered,
};
pub use status::Status;
pub use top::run;
