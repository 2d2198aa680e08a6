//! What is known of a made file.
ghost use Rattle.nz_make.specs.Crowds.{DualCrowdIsKnown, PrimalCrowdIsKnown};
ghost use Rattle.nz_make.specs.Laws.{IrreduciblesArePoints, PointsAreCounted};

/// The irreducible elements of the monoid of the file of side n are the (n + 1)² points of the square, and their entries have the sum (n + 1)³.
pub fn irreducibles_are_points()
    ensures elements { IrreduciblesArePoints }
    ensures numbers { PointsAreCounted }
{}

/// Of the file of side n, 3n² - 4n + 6 vectors have to be held in primal mode, and (n + 1)² in dual mode.
pub fn crowds_are_known()
    ensures primal { PrimalCrowdIsKnown }
    ensures dual { DualCrowdIsKnown }
{}
