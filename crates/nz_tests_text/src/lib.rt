//! The tests of the crates that speak text, and of the outside, one file for each crate.
//! No item but tests: a crate that holds tests itself is proved twice, and these stand beside it and are proved once.
//! Below stand the text, the input, its meaning, the made files, the words, the blocks and the outside, of which they name public calls alone.
//! No crate stands above.
//! Start reading at the tests of the crate that you change.
#![tactic(auto)]

#[cfg(test)]
mod blocks_tests;
#[cfg(test)]
mod edge_tests;
#[cfg(test)]
mod input_tests;
#[cfg(test)]
mod make_tests;
#[cfg(test)]
mod system_tests;
#[cfg(test)]
mod text_tests;
#[cfg(test)]
mod words_tests;
