//! The output text of a run: what was found, in blocks of right-aligned rows.
//! Its contract: `blocks` gives exactly the text of an outcome, `read_blocks` the one outcome of a text, or Bad where there is none; `put_space` and `put_block` are what any text of lists is put together from.
//! Below it stand the rows of `nz_vec` and the replies of `nz_member`; the numbers are printed by `itoa`.
//! `nz_run` stores the text.
//! Start with `specs/Output.antt`, then `blocks` and `read_blocks`.
#![tactic(auto)]

mod asked;
mod asked_lines;
mod columns;
mod digits;
mod draft;
mod laws;
mod outcome;
mod read;
mod reading_answers;
mod reading_asked;
mod reading_blocks;
mod reading_numbers;
mod reading_outside;
mod reading_rows;
mod reading_sections;
mod reading_simplices;
mod refusal;
mod shapes;
mod shapes_asked;
mod text;

pub use asked::AskedList;
pub use laws::texts_have_one_outcome;
pub use outcome::Outcome;
pub use read::read_blocks;
pub use refusal::BlockRefusal;
pub use text::{blocks, put_block, put_space};
