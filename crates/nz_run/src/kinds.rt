//! The kinds of runs. What they share stands in the modules `top` and `finding`; each finds its text in a module of its own.
ghost use Rattle.std.specs.Prelude.{◌≡◌};
ghost use Rattle.nz_run.specs.Kinds.{kind_for, ending_of, stored_status};

use crate::Status;
use nz_input::File;
use nz_system::goal_set;
use nz_words::RunOrder;

/// What a run does with the file that it reads.
#[derive(Clone, Copy, Drop)]
pub enum RunKind {
    /// The file's system is solved, and what is asked of it is stored.
    Plain,
    /// The canonical text of the file is stored.
    Convert,
    /// The units of the file's system and a vector of each irreducible class are stored.
    Units,
    /// The lattice points of the file's system are stored.
    LatticePoints,
}

/// The kind of the run that is ordered, on this file.
pub(crate) fn kind_for(order: &RunOrder, file: &File) -> RunKind
    ensures { result ≡ kind_for order.now file.now }
{
    if order.convert {
        RunKind::Convert
    } else if order.units {
        RunKind::Units
    } else if goal_set(&file.goals, &order.goals).lattice_points {
        RunKind::LatticePoints
    } else {
        RunKind::Plain
    }
}

impl RunKind {
    /// How the name of the file ends that a run of this kind stores.
    pub(crate) fn ending(self) -> &'static str
        ensures { result.now ≡ ending_of self }
    {
        match self {
            RunKind::Plain => ".out",
            RunKind::Convert => ".conv",
            RunKind::Units => ".units",
            RunKind::LatticePoints => ".points",
        }
    }

    /// The status of a run of this kind whose file is stored.
    pub(crate) fn status_when_stored(self) -> Status
        ensures { result ≡ stored_status self }
    {
        match self {
            RunKind::Plain => Status::Done,
            RunKind::Convert => Status::Converted,
            RunKind::Units => Status::UnitsDone,
            RunKind::LatticePoints => Status::Points,
        }
    }
}
