//! The system of a file, with what is asked of it.

use crate::asked::GoalSet;
use nz_input::Mode;
use nz_vec::{Constraints, Row, Rows, Scalar};
use std::marker::Model;

/// A system of constraints and generators over an integer type, with goals and mode. Forms and vectors
/// have `width` entries, of which the last is the level where there is one; asked vectors have none for it.
#[derive(Drop)]
pub struct SystemOver<T: Scalar> {
    pub width: u32,
    pub level: bool,
    pub eq: Rows<T>,
    pub cg: Constraints<T>,
    pub ge: Rows<T>,
    pub gens: Option<Rows<T>>,
    pub lat: Option<Rows<T>>,
    pub grading: Option<Row<T>>,
    pub asked: Option<Rows<T>>,
    pub goals: GoalSet,
    pub mode: Mode,
}

/// The system of a file.
pub type System = SystemOver<i128>;

impl<T: Scalar> Model for SystemOver<T> {
    ghost use Rattle.std.specs.Prelude.{◌≡◌, map};
    ghost use Rattle.nz_spec.specs.Constraints.{constraint_of};
    ghost use Rattle.nz_system.specs.Meaning.{SystemData, IsKept, congruences_of};

    ghost Value = { SystemData };

    ghost view = { λ s. record { system = record { width = s.width; level = s.level; eq = s.eq; cg = congruences_of s.cg; ge = s.ge; gens = s.gens; lat = s.lat; grading = s.grading; asked = s.asked }; goals = s.goals; mode = s.mode } };

    // Each constraint of `cg` is a congruence, and the rest is as the definitions say.
    ghost invariant = { λ s. (s.cg ≡ map constraint_of (congruences_of s.cg)) × IsKept (record { system = record { width = s.width; level = s.level; eq = s.eq; cg = congruences_of s.cg; ge = s.ge; gens = s.gens; lat = s.lat; grading = s.grading; asked = s.asked }; goals = s.goals; mode = s.mode }) };
}

impl<T: Scalar> SystemOver<T> {
    ghost use Rattle.nz_system.specs.Meaning.{IsKept};

    /// What each system keeps.
    pub fn kept(&self)
        ensures { IsKept self.now }
    {
        let _ = &self.width;
    }
}
