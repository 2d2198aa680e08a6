//! The command line: what the words behind the program's name order.
//! The one contract: `order` answers exactly what the words order, and Usage exactly where they order nothing.
//! Below stand the goals of `nz_input`, and `clap`, which reads the words.
//! The top call reads its words by `order`, and the program chooses its watch by `watch_choice`.
//! Begin with `specs/Parts.antt` and `specs/Orders.antt`, where it is said which words are accepted and what they order.
#![tactic(auto)]

mod command;
mod judging;
mod laws;
mod name;
mod number;
mod ordering;
mod reading;

pub use laws::words_order_one_thing;
pub use name::Name;
pub use nz_vec::NoMemory;
pub use ordering::{RunOrder, WatchChoice, WordsRefusal, order, watch_choice};
