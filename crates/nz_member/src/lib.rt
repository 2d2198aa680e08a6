//! Whether a vector meets constraints, and the parts of one that does.
//! Its contract: `answer` gives the first constraint that fails at a vector, or how often each element is taken from it.
//! Below it stand the definitions, the lemmas on parts of `nz_order`, and the rows and constraints of `nz_vec`.
//! `nz_solve` answers the asked vectors of a file with it.
//! Start with `specs/Replies.antt`, then `answer`.
#![tactic(auto)]

mod answering;
mod heights;
mod leftover;
mod meeting;
mod members;
mod parts;
mod reply;
mod taking;

pub use answering::answer;
pub use meeting::member;
pub use members::members_have_parts;
pub use reply::Reply;
