//! What all outcomes of a system have in common.
ghost use Rattle.nz_solve.specs.Laws.{SolvedIsNotRefused, ModesAgree};

/// A solved system has no line and no degree to be refused; and two outcomes of one system that differ in the
/// mode alone, with no cover, are the same.
pub fn modes_agree()
    ensures solved { SolvedIsNotRefused }
    ensures modes { ModesAgree }
{}
