ghost use Rattle.std.specs.Prelude.{◌≡◌};

use nz_input::Fault;
use nz_system::MeaningFault;
use nz_vec::Ints;

/// What a run ends with. On every status but `Done`, `Converted`, `UnitsDone`, `Points` and `WriteFault` the files are as before.
#[derive(Drop)]
pub enum Status {
    /// The text of what was asked is stored.
    Done,
    /// The words order nothing.
    Usage,
    /// There is no input file.
    Absent,
    /// The input file could not be read.
    ReadFault,
    /// The input has more than 16,777,216 bytes.
    TooLong,
    /// The input is a text of no file; lines and columns count from 1, columns in bytes.
    Grammar {
        line: u64,
        column: u64,
        fault: Fault,
    },
    /// The file breaks a rule of meaning. Items and their rows count from 1; row 0 is the item, item 0 the file.
    Meaning {
        item: u64,
        row: u32,
        fault: MeaningFault,
    },
    /// The members have a line: this vector and its opposite are members. It is no multiple of a shorter member, and its first nonzero
    /// entry is positive.
    Line(Ints),
    /// The first element of the Hilbert basis, whose degree is 0 or less.
    Grade(Ints),
    /// A number is no value of 128 bits. In primal mode, where no vector is asked, one that the run is known to form is above 2^62.
    Range,
    /// More vectors would have to be held than the limit allows.
    TooMany,
    /// The watch said stop at this stage.
    Stopped {
        stage: u64,
    },
    /// The output could not be stored; what stands under its name is not known.
    WriteFault,
    /// Memory ran out.
    NoMemory,
    /// The canonical text of the input's file is stored.
    Converted,
    /// The units and the representatives of the irreducible classes are stored.
    UnitsDone,
    /// The lattice points are stored.
    Points,
    /// The file's system is not bounded: this vector is a nonzero member of level 0, and no multiple of a shorter member.
    Unbounded(Ints),
}

impl Status {
    ghost use Rattle.nz_run.specs.Statuses.{code_of};

    /// The exit status of the program.
    pub fn code(&self) -> u8
        ensures { result ≡ code_of self.now }
    {
        match self {
            Status::Done => 0,
            Status::Usage => 2,
            Status::Absent => 3,
            Status::ReadFault => 4,
            Status::TooLong => 5,
            Status::Grammar { .. } => 6,
            Status::Meaning { .. } => 7,
            Status::Line(_) => 8,
            Status::Grade(_) => 9,
            Status::Range => 10,
            Status::TooMany => 11,
            Status::Stopped { .. } => 12,
            Status::WriteFault => 13,
            Status::NoMemory => 14,
            Status::Converted => 17,
            Status::UnitsDone => 18,
            Status::Points => 19,
            Status::Unbounded(_) => 20,
        }
    }
}
