//! Files whose reach and crowd are known as numbers: the examples that are worked through.
//! It has no code that runs; its one contract: the theorems that the functions below state, each on the system of a file of its specs/.
//! Below it stand the reach and the crowd of `nz_measures`, and the meaning of a file in `nz_system`.
//! Nothing stands on it: it shows that these two measures have the values that they are meant to have.
//! Start with specs/Files.antt, then specs/Laws.antt.
#![tactic(auto)]

ghost use Rattle.nz_worked.specs.Laws.{CrowdOfOrthant, CrowdOfWedge, ReachOfQuadrant, ReachOfNarrow, ReachOfFar};

/// The crowd of `amb_space n` alone is n + 1, and that of the cone of (1, 3) and (2, 1) is 7, each in both modes.
pub fn crowds_are_known()
    ensures orthant { CrowdOfOrthant }
    ensures wedge { CrowdOfWedge }
{}

/// The reach of `amb_space 2` alone is 1; that of the cone of (1000000007, 1) and (1000000006, 1) lies between 2^30 and 2^62; that of three vectors with entries of at most 10^18 is above 2^62: each in both modes.
pub fn reaches_are_known()
    ensures quadrant { ReachOfQuadrant }
    ensures narrow { ReachOfNarrow }
    ensures far { ReachOfFar }
{}
