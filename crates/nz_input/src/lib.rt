//! The grammar of input files.
//! The one contract: `read` gives a file exactly where the bytes are a text of it, and else the first place that no text can have, with its fault.
//! Below stand the pieces of `nz_text` and the lists of `nz_vec`.
//! `nz_system` gives a file its meaning, and `nz_run` reads it and writes its refusals.
//! Begin with `specs/Texts.antt`, where the texts of a file are defined, and `specs/Refusals.antt`.
#![tactic(auto)]

mod fault;
mod file;
mod kind;
mod laws;
mod parts;
mod reader;
mod reading;
mod refusal;
mod spell;
mod symbol;
mod writing;

pub use fault::{byte_at, digit, numeric, piece_fault, role_fault};
pub use file::{File, Goals, Item, Items};
pub use kind::{Goal, Kind, Mode, WORDS, Word};
pub use laws::{
    canonical_texts_tell_files, prefixes_have_endings, refusals_are_unique, texts_have_one_file,
    texts_keep_limits, written_files_are_read_back,
};
pub use nz_vec::NoMemory;
pub use parts::{FileEntry, entry, opening};
pub use reading::read;
pub use refusal::{Fault, ReadRefusal};
pub use spell::{DigitFront, common, count, digit_run, number, word};
pub use symbol::{Role, Symbol};
pub use writing::write;
