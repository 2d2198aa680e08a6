ghost use Rattle.std.specs.Prelude.{◌≡◌, ◌≤◌, ℕ, List, Option, length, IsTrue, IsFalse};
ghost use Rattle.nz_watch.specs.Counts.{Rose};
ghost use Rattle.nz_edge.specs.Folders.{BothTold};
ghost use Rattle.nz_edge.specs.Answers.{Takes, WroteCause, PutAll};

/// What a write answers.
#[derive(Clone, Copy, Debug, PartialEq, Eq)]
pub enum Wrote {
    /// So many first bytes of the piece.
    Took(usize),
    /// None.
    Failed,
}

/// A console, which takes bytes in pieces of its own choice.
pub trait Sink {
    /// The bytes written so far, where it tells them.
    ghost written: { Self → Option (List ℕ) };

    /// How often writing failed.
    ghost faults: { Self → ℕ };

    /// Writes some first bytes of the piece.
    fn write(&mut self, piece: &[u8]) -> Wrote
        ensures takes { Takes (written self.old) (written self.new) piece.now result }
        ensures cause { WroteCause (faults self.old) (faults self.new) result }
        ensures later { faults self.old ≤ faults self.new };
}

/// Writes the bytes, piece by piece. After the answer false some first ones of them were written.
pub fn put_all<S: Sink>(sink: &mut S, bytes: &[u8]) -> bool
    ensures written { BothTold (S.written sink.old) (S.written sink.new) (λ old new. PutAll old new bytes.now result) }
    ensures cause { IsFalse result → Rose (S.faults sink.old) (S.faults sink.new) }
    ensures later { S.faults sink.old ≤ S.faults sink.new }
{
    let mut done = 0usize;
    while done < bytes.len() {
        match sink.write(&bytes[done..]) {
            Wrote::Took(count) => done += count,
            Wrote::Failed => return false,
        }
    }
    true
}
