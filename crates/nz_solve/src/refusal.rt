ghost use Rattle.nz_solve.specs.Parts.{IsReckonRefusal, IsCountedRefusal, IsSameRefusal, IsToldRefusal, IsOuterRefusal};

use nz_vec::{Ints, Num, Work};

/// Why a system has no outcome.
#[derive(Drop)]
pub enum SolveRefusal {
    /// The members have a line: this vector and its opposite are members. It is no multiple of a
    /// shorter member, and its first nonzero entry is positive.
    Line(Ints),
    /// The first element of the Hilbert basis, whose degree is 0 or less.
    Grade(Ints),
    /// A number is no value of the type: one that the run is known to form is above `HALF`.
    Range,
    /// More vectors would have to be held than the limit allows.
    TooMany,
    /// The watch said stop at this stage.
    Stopped { stage: u64 },
    NoMemory,
}

/// Why a system has no outcome with integers of one type.
#[derive(Drop)]
pub enum InnerRefusal {
    /// The members have a line, as in `SolveRefusal`.
    Line(Ints),
    /// The first element of the Hilbert basis, whose degree is 0 or less.
    Grade(Ints),
    /// A number is no value of this type, after the first `told` stages were told, before the call or in it.
    Range { told: u64 },
    /// More vectors would have to be held than the limit allows.
    TooMany,
    /// The watch said stop at this stage.
    Stopped { stage: u64 },
    NoMemory,
}

/// The refusal of a call that only reckons.
pub(crate) fn unreckoned(refusal: Num) -> SolveRefusal
    ensures { IsReckonRefusal refusal result }
{
    match refusal {
        Num::Range => SolveRefusal::Range,
        Num::NoMemory => SolveRefusal::NoMemory,
    }
}

/// The same after so many first stages were told.
pub(crate) fn counted(refusal: Num, told: u64) -> InnerRefusal
    ensures { IsCountedRefusal told refusal result }
{
    match refusal {
        Num::Range => InnerRefusal::Range { told },
        Num::NoMemory => InnerRefusal::NoMemory,
    }
}

/// The refusal of a call that works in stages.
pub(crate) fn unfinished(refusal: Work) -> InnerRefusal
    ensures { IsSameRefusal refusal result }
{
    match refusal {
        Work::Range { told } => InnerRefusal::Range { told },
        Work::TooMany => InnerRefusal::TooMany,
        Work::Stopped { stage } => InnerRefusal::Stopped { stage },
        Work::NoMemory => InnerRefusal::NoMemory,
    }
}

/// The refusal after so many first stages were told.
pub(crate) fn with_told(refusal: SolveRefusal, told: u64) -> InnerRefusal
    ensures { IsToldRefusal told refusal result }
{
    match refusal {
        SolveRefusal::Line(line) => InnerRefusal::Line(line),
        SolveRefusal::Grade(element) => InnerRefusal::Grade(element),
        SolveRefusal::Range => InnerRefusal::Range { told },
        SolveRefusal::TooMany => InnerRefusal::TooMany,
        SolveRefusal::Stopped { stage } => InnerRefusal::Stopped { stage },
        SolveRefusal::NoMemory => InnerRefusal::NoMemory,
    }
}

/// The refusal without the number of stages told.
pub(crate) fn without_told(refusal: InnerRefusal) -> SolveRefusal
    ensures { IsOuterRefusal refusal result }
{
    match refusal {
        InnerRefusal::Line(line) => SolveRefusal::Line(line),
        InnerRefusal::Grade(element) => SolveRefusal::Grade(element),
        InnerRefusal::Range { .. } => SolveRefusal::Range,
        InnerRefusal::TooMany => SolveRefusal::TooMany,
        InnerRefusal::Stopped { stage } => SolveRefusal::Stopped { stage },
        InnerRefusal::NoMemory => SolveRefusal::NoMemory,
    }
}
