ghost use Rattle.std.specs.Prelude.{◌≡◌, ◌≤◌, Some, IfOk};
ghost use Rattle.nz_edge.specs.Answers.{Takes, WroteCause};
ghost use Rattle.nz_edge.specs.Calls.{IsOneMore};
ghost use Rattle.nz_edge.specs.Memory.{IsNewSink, WriteCounts, bytes_of};

use crate::buffer::Buffer;
use crate::calls::Calls;
use crate::{Sink, Wrote};
use nz_vec::NoMemory;
use nz_watch::raise;
use std::alloc::Global;

/// A console in memory with room for so many bytes, for tests of a run. The calls with a listed number fail.
#[derive(Drop)]
pub struct MemSink {
    buffer: Buffer,
    calls: Calls,
    faults: u64,
}

impl MemSink {
    /// The memory for the whole room is taken here, so that no write can want it later.
    pub fn new(alloc: Global, room: usize, fail: Vec<u64>) -> Result<MemSink, NoMemory>
        ensures { IfOk result (λ sink. IsNewSink room fail.items sink) }
    {
        match Buffer::new(alloc, room) {
            Ok(buffer) => Ok(MemSink {
                buffer,
                calls: Calls::new(fail),
                faults: 0,
            }),
            Err(_) => Err(NoMemory),
        }
    }

    /// What was written so far.
    pub fn bytes(&self) -> &[u8]
        ensures { result.now ≡ bytes_of self.now }
    {
        self.buffer.as_slice()
    }
}

impl Sink for MemSink {
    ghost use Rattle.std.specs.Prelude.{Some};
    ghost use Rattle.nz_edge.specs.Memory.{bytes_of};

    ghost written = { λ s. Some (bytes_of s) };

    ghost faults = { λ s. s.faults };

    fn write(&mut self, piece: &[u8]) -> Wrote
        ensures takes { Takes (Some (bytes_of self.old)) (Some (bytes_of self.new)) piece.now result }
        ensures cause { WroteCause self.old.faults self.new.faults result }
        ensures later { self.old.faults ≤ self.new.faults }
        ensures calls { IsOneMore self.old.calls self.new.calls }
        ensures counts { WriteCounts self.old self.new piece.now result }
    {
        if self.calls.next_fails() {
            raise(&mut self.faults);
            return Wrote::Failed;
        }
        if self.buffer.append(piece) {
            return Wrote::Took(piece.len());
        }
        raise(&mut self.faults);
        Wrote::Failed
    }
}
