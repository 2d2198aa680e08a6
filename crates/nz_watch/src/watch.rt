ghost use Rattle.std.specs.Prelude.{◌≡◌, ◌≤◌, ◌<◌, IsFalse, None};
ghost use Rattle.nz_watch.specs.Counts.{Rose};
ghost use Rattle.nz_watch.specs.Telling.{Watched};
ghost use Rattle.nz_watch.specs.Watching.{Tells, Waits, told_at};

/// What is told of each stage of a run, and may stop it between two stages.
///
/// A stage has a number and a list of vectors, of which the watch is told the size.
pub trait Watch: Drop {
    /// The pairs told so far, where it tells them; how many calls will be answered true before the
    /// first that is answered false, where it knows; and how often it stopped a run.
    ghost seen: { Self → Watched };

    /// Tells a stage and the size of its list. The answer false asks to stop.
    fn stage(&mut self, number: u64, count: u64) -> bool
        ensures told { Tells (seen self.old).told (seen self.new).told (number, count) }
        ensures patience { Waits (seen self.old).patience (seen self.new).patience result }
        ensures cause { IsFalse result → Rose (seen self.old).stops (seen self.new).stops }
        ensures always { (seen self.old).stops < (seen self.new).stops → IsFalse result }
        ensures later { (seen self.old).stops ≤ (seen self.new).stops };

    /// The pair told at this place, from 0, where the watch tells and has one there.
    fn pair(&self, place: usize) -> Option<(u64, u64)>
        ensures { result ≡ told_at (seen self.now).told place };
}

/// A watch that tells nothing and never stops.
#[derive(Drop)]
pub struct QuietWatch {}

impl QuietWatch {
    pub fn new() -> QuietWatch {
        QuietWatch {}
    }
}

impl Watch for QuietWatch {
    ghost seen = { λ w. record { told = None; patience = None; stops = 0 } };

    fn stage(&mut self, _number: u64, _count: u64) -> bool {
        true
    }

    fn pair(&self, _place: usize) -> Option<(u64, u64)> {
        None
    }
}
