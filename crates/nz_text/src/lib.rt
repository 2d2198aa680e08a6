//! The pieces of an input text, and the place of a byte in it.
//! The one contract: `step` finds the next piece exactly as the grammar of gaps and pieces says.
//! Below stand the lists of `nz_vec`; a text is a list of bytes.
//! `nz_input` reads files piece by piece with it, and tells a user the line and the column of a fault.
//! Begin with `specs/Bytes.antt`, where gaps and pieces are defined.
#![tactic(auto)]

mod found;
mod laws;
mod pieces;
mod places;
mod scan;
mod spans;

pub use found::{Found, Span, TextFault, TextRefusal};
pub use laws::steps_are_unique;
pub use nz_vec::NoMemory;
pub use pieces::{Class, sort_of, step};
pub use places::place;
pub use scan::tokens;
pub use spans::Spans;
