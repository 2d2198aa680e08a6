use crate::NoMemory;

/// Why a call that only reckons gives no answer.
#[derive(Clone, Copy, Debug, PartialEq, Eq)]
pub enum Num {
    /// A number of the call is no value of the type.
    Range,
    NoMemory,
}

/// Why a call that works in stages gives no answer.
#[derive(Clone, Copy, Debug, PartialEq, Eq)]
pub enum Work {
    /// A number of the call is no value of the type, after `told` stages were told.
    Range { told: u64 },
    /// A list would hold more vectors than its limit.
    TooMany,
    /// The watch said stop at this stage.
    Stopped { stage: u64 },
    NoMemory,
}

impl From<NoMemory> for Num {
    ghost use Rattle.std.specs.Prelude.{◌≡◌};
    ghost use Rattle.nz_vec.specs.declared.answers.Num.TheVariants as variants;

    ghost from_gives = { λ _ e. e ≡ variants.NoMemory };

    fn from(_no_memory: NoMemory) -> Num {
        Num::NoMemory
    }
}

impl From<NoMemory> for Work {
    ghost use Rattle.std.specs.Prelude.{◌≡◌};
    ghost use Rattle.nz_vec.specs.declared.answers.Work.TheVariants as variants;

    ghost from_gives = { λ _ e. e ≡ variants.NoMemory };

    fn from(_no_memory: NoMemory) -> Work {
        Work::NoMemory
    }
}
