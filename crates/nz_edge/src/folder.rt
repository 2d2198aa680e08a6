ghost use Rattle.std.specs.Prelude.{◌≡◌, ◌≤◌, ◌<◌, ◌^◌, ℕ, List, Option};
ghost use Rattle.nz_edge.specs.Folders.{Files, BothTold, SameFiles};
ghost use Rattle.nz_edge.specs.Answers.{LoadGives, LoadBound, LoadCause, StoreLeaves, StoreCause, OnTold};

use nz_vec::Bytes;
use std::alloc::Global;

/// What a load answers.
#[derive(Drop)]
pub enum Load {
    /// The first bytes of the file.
    Bytes(Bytes),
    /// No file has this name.
    Absent,
    /// The file could not be read.
    Failed,
    NoMemory,
}

/// What a store answers.
#[derive(Clone, Copy, Debug, PartialEq, Eq)]
pub enum Stored {
    Done,
    /// What stands under the name is not known now: it may be a part of the bytes.
    Failed,
    NoMemory,
}

/// A folder of files, by name.
///
/// No contract can say what a disk holds, so `files` is there only where a folder tells it. The three counts are what a caller of any
/// folder may rest on: each keeps at its last value, 2^64 - 1, so that "it rose" has a meaning after so many events too.
pub trait Folder {
    /// The files, where it tells them.
    ghost files: { Self → Option Files };

    /// How often reading failed.
    ghost faults: { Self → ℕ };

    /// How often a file was not there.
    ghost misses: { Self → ℕ };

    /// How often storing failed.
    ghost store_faults: { Self → ℕ };

    /// The first `most + 1` bytes of a file, or all where there are fewer: one more than a caller can use, so that it sees a file that is too long.
    fn load(&mut self, alloc: Global, name: &str, most: usize) -> Load
        requires { most < 2 ^ 32 }
        ensures files { BothTold (files self.old) (files self.new) SameFiles }
        ensures gives { OnTold (files self.old) (λ at. LoadGives at name.now most (faults self.old) (faults self.new) result) }
        ensures bounded { LoadBound most result }
        ensures cause { LoadCause (faults self.old) (faults self.new) (misses self.old) (misses self.new) result }
        ensures faults_later { faults self.old ≤ faults self.new }
        ensures misses_later { misses self.old ≤ misses self.new }
        ensures store_faults { store_faults self.new ≡ store_faults self.old };

    /// Puts these bytes in the place of what stands under the name.
    fn store(&mut self, name: &str, bytes: &[u8]) -> Stored
        ensures files { BothTold (files self.old) (files self.new) (λ old new. StoreLeaves name.now bytes.now old new result) }
        ensures cause { StoreCause (store_faults self.old) (store_faults self.new) result }
        ensures later { store_faults self.old ≤ store_faults self.new }
        ensures faults { faults self.new ≡ faults self.old }
        ensures misses { misses self.new ≡ misses self.old };
}
