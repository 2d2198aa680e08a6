ghost use Rattle.std.specs.Prelude.{◌≡◌, Some, None};

use crate::lines_watch::print_stage;
use nz_watch::{Watch, raise};
use std::io::Eprint;

/// A watch that lets a number of stages pass, and asks to stop at each later one.
#[derive(Drop)]
pub struct StopWatch<R: Eprint + Drop> {
    rt: R,
    left: u64,
    lines: bool,
    stops: u64,
}

impl<R: Eprint + Drop> StopWatch<R> {
    /// Answers true `left` times. Where `lines` holds, each stage is first printed to standard error, also the one at which it asks to stop.
    pub fn new(rt: R, left: u64, lines: bool) -> StopWatch<R>
        ensures left { result.left ≡ left }
        ensures lines { result.lines ≡ lines }
        ensures stops { result.stops ≡ 0 }
    {
        StopWatch {
            rt,
            left,
            lines,
            stops: 0,
        }
    }
}

impl<R: Eprint + Drop> Watch for StopWatch<R> {
    ghost seen = { λ w. record { told = None; patience = Some w.left; stops = w.stops } };

    fn stage(&mut self, number: u64, count: u64) -> bool {
        if self.lines {
            print_stage(&self.rt, number, count);
        }
        if self.left == 0 {
            raise(&mut self.stops);
            return false;
        }
        self.left -= 1;
        true
    }

    fn pair(&self, _place: usize) -> Option<(u64, u64)> {
        None
    }
}
