//! Double description: the extreme rays of a cone, kept as rows are added one by one.
//! Its contract: the rays of a `Double`, and those of `extreme_rays`, are exactly the primitive extreme rays of the cone of its rows, each once.
//! Below it stand the first rows of `nz_pointed` and the lemmas on rays of `nz_linear`.
//! The conversion of generators to constraints, covers and the primal algorithm stand above.
//! Start reading at `specs/Descriptions.antt`, then `Double`.
#![tactic(auto)]

mod crossings;
mod cutting;
mod double;
mod extreme;
mod sharing;
mod words;
mod zero_sets;

pub use double::Double;
pub use extreme::{extreme_rays, first_rows, pointed_rays};
