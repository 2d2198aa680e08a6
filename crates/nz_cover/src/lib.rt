//! Placing: a cone given by its rays is covered by simplices that do not overlap inside.
//! Its contract: `place` answers a good cover with the forms of each simplex, and tells a watch the stages.
//! Below it stand the first simplex of `nz_pointed`, double description of `nz_rays`, and the lemmas of `nz_linear`.
//! The primal run takes its simplices from here.
//! Start reading at `specs/Placing.antt` and `specs/Steps.antt`.
#![tactic(auto)]

mod adding;
mod corners;
mod covering;
mod listing;
mod placing;

pub use covering::place;
pub use listing::Cover;
