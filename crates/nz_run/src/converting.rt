//! A conversion: the file is written again, and no system is made of it.
ghost use Rattle.std.specs.Prelude.{◌≡◌, MatchResult};
ghost use Rattle.nz_input.specs.Canonical.{canonical};

use crate::Status;
use nz_input::{File, write};
use nz_vec::Bytes;
use std::alloc::Global;

/// The canonical text of the file.
pub(crate) fn converted(alloc: Global, file: &File) -> Result<Bytes, Status>
    ensures { MatchResult result (λ text. text ≡ canonical file.now) (λ status. status ≡ Status.NoMemory) }
{
    match write(alloc, file) {
        Ok(text) => Ok(text),
        Err(_) => Err(Status::NoMemory),
    }
}
