//! The tests of the engines, one file for each crate, and two for the sweep and the facets.
//! No item but tests: a crate that holds tests itself is proved twice, and these stand beside it and are proved once.
//! Below stand the numbers, the rows and the engines on them, of which they name public calls alone.
//! No crate stands above.
//! Start reading at the tests of the crate that you change.
#![tactic(auto)]

#[cfg(test)]
mod classes_tests;
#[cfg(test)]
mod cover_tests;
#[cfg(test)]
mod degree_tests;
#[cfg(test)]
mod dual_tests;
#[cfg(test)]
mod facets_constraints_tests;
#[cfg(test)]
mod facets_tests;
#[cfg(test)]
mod member_tests;
#[cfg(test)]
mod module_tests;
#[cfg(test)]
mod pointed_tests;
#[cfg(test)]
mod rays_tests;
#[cfg(test)]
mod reducer_tests;
#[cfg(test)]
mod scalar_tests;
#[cfg(test)]
mod sweep_generating_tests;
#[cfg(test)]
mod sweep_tests;
#[cfg(test)]
mod vec_tests;
