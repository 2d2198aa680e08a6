//! The tests of the primal algorithm, of solving a system and of the whole run, one file for each crate.
//! No item but tests: a crate that holds tests itself is proved twice, and these stand beside it and are proved once.
//! Below stand `nz_primal`, `nz_solve` and `nz_run`, of which they name public calls alone.
//! No crate stands above.
//! Start reading at `run_tests`, the worked files from end to end.
#![tactic(auto)]

#[cfg(test)]
mod broken_tests;
#[cfg(test)]
mod convert_tests;
#[cfg(test)]
mod ideal_tests;
#[cfg(test)]
mod make_tests;
#[cfg(test)]
mod mode_tests;
#[cfg(test)]
mod points_tests;
#[cfg(test)]
mod primal_tests;
#[cfg(test)]
mod run_tests;
#[cfg(test)]
mod solve_tests;
#[cfg(test)]
mod stop_tests;
#[cfg(test)]
mod units_tests;
