ghost use Rattle.std.specs.Prelude.{None};

use nz_watch::Watch;
use std::io::Eprint;

// Prints the line of a stage to standard error. A line that cannot be printed is left out, since no run depends on it.
pub(crate) fn print_stage<R: Eprint>(rt: &R, number: u64, count: u64) {
    let _printed = eprintln!(rt; "stage {number}: {count}");
}

/// A watch that prints each stage, as `stage K: C`, to standard error, and never stops.
#[derive(Drop)]
pub struct LinesWatch<R: Eprint + Drop> {
    rt: R,
}

impl<R: Eprint + Drop> LinesWatch<R> {
    pub fn new(rt: R) -> LinesWatch<R> {
        LinesWatch { rt }
    }
}

impl<R: Eprint + Drop> Watch for LinesWatch<R> {
    ghost seen = { λ w. record { told = None; patience = None; stops = 0 } };

    fn stage(&mut self, number: u64, count: u64) -> bool {
        print_stage(&self.rt, number, count);
        true
    }

    fn pair(&self, _place: usize) -> Option<(u64, u64)> {
        None
    }
}
