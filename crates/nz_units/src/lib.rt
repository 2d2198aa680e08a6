//! Monoids with lines: their units, and one vector for each irreducible class.
//! Its contract: `unit_split` gives independent vectors of the same group, in two parts: all rows are 0 at the units, and at no nonzero sum of the rest; `units` gives these units, and the vectors of the group of the rest that are of irreducible classes; `system_units` gives both of a system, the classes by level.
//! Below it stand the clearing of `nz_sweep`, the first rows of `nz_rays`, the dual algorithm of `nz_dual`, the systems in coordinates of `nz_frame`, and the laws on units of `nz_further`.
//! Above it `nz_run` lists the units and the irreducible classes of a file.
//! Start reading at `specs/Splits.antt` and `specs/UnitLists.antt`, then `units`, `specs/SystemUnits.antt` and `system_units`.
#![tactic(auto)]

mod coordinates;
mod irreducibles;
mod splitting;
mod systems;
mod unit_lists;

pub use splitting::{Split, unit_split};
pub use systems::{SystemUnits, system_units};
pub use unit_lists::{UnitLists, units};
