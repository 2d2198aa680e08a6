ghost use Rattle.std.specs.Prelude.{◌≡◌, ◌≤◌};
ghost use Rattle.nz_watch.specs.Counts.{raised, Rose};

/// Counts one more event. A count stays at its last value.
pub fn raise(count: &mut u64)
    ensures next { count.new ≡ raised count.old }
    ensures later { count.old ≤ count.new }
    ensures rose { Rose count.old count.new }
{
    *count = count.saturating_add(1);
}
