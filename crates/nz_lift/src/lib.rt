//! Lattice points of polytopes, by projection and lifting.
//! Its contract: where only 0 has the level 0, `lift` lists exactly the integer vectors of level 1 at which rows are at least 0, in order and no more than a limit, and else it gives a nonzero vector of level 0 there; `system_points` gives the same of the members of a system.
//! Below it stand the test for lines of `nz_pointed`, the rays of `nz_rays`, the support forms of `nz_facets`, the systems in coordinates of `nz_frame`, and the laws on shadows of `nz_further`.
//! Above it `nz_run` lists the lattice points of a file.
//! Start reading at `specs/Lifts.antt` and `specs/LiftNumbers.antt`, then `lift`, `specs/SystemPoints.antt` and `system_points`.
#![tactic(auto)]

mod directions;
mod forms;
mod intervals;
mod lifting;
mod narrowing;
mod points;
mod systems;
mod vectors;

pub use points::{Lifted, lift};
pub use systems::{SystemPoints, system_points};
