//! A system in coordinates: its lattice by a base, its constraints as rows on the coordinates of that base, and the way back; and all its constraints as a list.
//! Its contract: `frame_of` gives a base of the lattice, as the stated sweep leaves it, and the rows on its coordinates; `system_constraints` all constraints, in their order. Range comes only where a number of the system is above `HALF`.
//! Below it stand the facets of `nz_facets`, the lattices of `nz_sweep`, the named numbers of `nz_measures` and the systems of `nz_system`.
//! `nz_solve` works in the coordinates that it gives; whatever else is asked of a system begins with the same call.
//! Start reading at `specs/Frames.antt`, then `frame_of`.
#![tactic(auto)]

mod constraining;
mod faces;
mod frames;
mod lattices;
mod lines;
mod orders;

pub use constraining::system_constraints;
pub use frames::{Frame, frame_of};
pub use lines::least_line;
pub use orders::order_forms;
