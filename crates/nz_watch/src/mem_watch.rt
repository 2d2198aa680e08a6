ghost use Rattle.std.specs.Prelude.{◌≡◌, ◌≤◌, ◌<◌, IfOk, IfSome, IsFalse};
ghost use Rattle.nz_watch.specs.Counts.{raised, Rose};
ghost use Rattle.nz_watch.specs.Watching.{Tells, Waits, told_at};
ghost use Rattle.nz_watch.specs.MemWatches.{IsNewWatch, StageCounts, pairs_of, calls_left};

use crate::Watch;
use crate::count::raise;
use crate::pairs::Pairs;
use nz_vec::NoMemory;
use std::alloc::Global;

/// A watch in memory, for tests of a run: it tells its pairs until there are more than it has room for.
#[derive(Drop)]
pub struct MemWatch {
    pairs: Pairs,
    calls: u64,
    stop_at: Option<u64>,
    stops: u64,
}

impl MemWatch {
    /// The call with the number `stop_at`, from 1, and each later one asks to stop, and no other.
    pub fn new(alloc: Global, room: usize, stop_at: Option<u64>) -> Result<MemWatch, NoMemory>
        requires { IfSome stop_at (λ number. 1 ≤ number) }
        ensures { IfOk result (λ watch. IsNewWatch room stop_at watch) }
    {
        match Pairs::new(alloc, room) {
            Ok(pairs) => Ok(MemWatch {
                pairs,
                calls: 0,
                stop_at,
                stops: 0,
            }),
            Err(_) => Err(NoMemory),
        }
    }
}

impl Watch for MemWatch {
    ghost use Rattle.nz_watch.specs.MemWatches.{pairs_of, calls_left};

    ghost seen = { λ w. record { told = pairs_of w; patience = calls_left w; stops = w.stops } };

    fn stage(&mut self, number: u64, count: u64) -> bool
        ensures told { Tells (pairs_of self.old) (pairs_of self.new) (number, count) }
        ensures patience { Waits (calls_left self.old) (calls_left self.new) result }
        ensures cause { IsFalse result → Rose self.old.stops self.new.stops }
        ensures always { self.old.stops < self.new.stops → IsFalse result }
        ensures later { self.old.stops ≤ self.new.stops }
        ensures counts { StageCounts self.old self.new result }
    {
        self.pairs.push((number, count));
        raise(&mut self.calls);
        let stops = match self.stop_at {
            Some(stop_at) => stop_at <= self.calls,
            None => false,
        };
        if stops {
            raise(&mut self.stops);
        }
        !stops
    }

    fn pair(&self, place: usize) -> Option<(u64, u64)> {
        self.pairs.at(place)
    }
}
