//! The watch of a run: what is told of each of its stages, and may stop it between two of them.
//! Its one contract: a pair is told for each stage, in order; a stop comes only where the count of stops rose, and always where it rose.
//! Below it stands `nz_vec`, for the refusal that memory runs out.
//! Every engine that works in stages takes a `Watch`, and so do the calls above; `nz_edge` has the watches that print.
//! Start reading at `watch.rt`; specs/Telling.antt says what a watch was told of the stages of a call.
#![tactic(auto)]

mod count;
mod mem_watch;
mod pairs;
mod watch;

pub use count::raise;
pub use mem_watch::MemWatch;
pub use watch::{QuietWatch, Watch};
