//! The statuses of refusals.
ghost use Rattle.std.specs.Prelude.{◌≡◌};
ghost use Rattle.nz_run.specs.SystemCauses.{status_of_work};

use crate::Status;
use nz_vec::Work;

/// The status of a refusal in a run that tells its watch nothing; none of those that come is Stopped.
pub(crate) fn status_of_work(refusal: Work) -> Status
    ensures { result ≡ status_of_work refusal }
{
    match refusal {
        Work::Range { .. } => Status::Range,
        Work::TooMany => Status::TooMany,
        Work::Stopped { stage } => Status::Stopped { stage },
        Work::NoMemory => Status::NoMemory,
    }
}
