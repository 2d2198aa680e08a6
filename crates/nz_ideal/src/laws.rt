//! What the systems of files with monomials have, as laws.
ghost use Rattle.nz_ideal.specs.Laws.{LevelOneIsClosure, ModulesAreMinimal, BasisIsUnits};

/// The system of a file with monomials has their integral closure at level 1, its minimal generators as
/// module generators, and the unit vectors as the Hilbert basis of its recession monoid.
pub fn closures_are_answered()
    ensures level_one { LevelOneIsClosure }
    ensures modules { ModulesAreMinimal }
    ensures basis { BasisIsUnits }
{}
