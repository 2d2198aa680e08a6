ghost use Rattle.std.specs.Prelude.{◌≡◌, ◌≤◌, ◌↔◌, ◌+◌, ◌++◌, [], length, IfOk, IsTrue, if◌then◌else◌, vec_len, vec_capacity};

use nz_vec::NoMemory;
use std::alloc::Global;

/// Bytes of at most a fixed number, for all of which the memory was taken at the start.
#[derive(Drop)]
pub struct Buffer {
    bytes: Vec<u8>,
    room: usize,
    ghost reserved: { room ≤ vec_capacity bytes },
    ghost within: { vec_len bytes ≤ room },
}

impl Buffer {
    pub fn new(alloc: Global, room: usize) -> Result<Buffer, NoMemory>
        ensures empty { IfOk result (λ buffer. buffer.bytes.items ≡ []) }
        ensures space { IfOk result (λ buffer. buffer.room ≡ room) }
    {
        match Vec::with_capacity(alloc, room) {
            Ok(bytes) => Ok(Buffer { bytes, room }),
            Err(_) => Err(NoMemory),
        }
    }

    pub fn as_slice(&self) -> &[u8]
        ensures { result.now ≡ self.now.bytes.items }
    {
        self.bytes.as_slice()
    }

    /// Appends the piece. The answer false comes exactly where it is longer than the room left.
    pub fn append(&mut self, piece: &[u8]) -> bool
        ensures room { self.new.room ≡ self.old.room }
        ensures fits { IsTrue result ↔ (length self.old.bytes.items + length piece.now ≤ self.old.room) }
        ensures bytes { self.new.bytes.items ≡ (if result then self.old.bytes.items ++ piece.now else self.old.bytes.items) }
    {
        if piece.len() > self.room - self.bytes.len() {
            return false;
        }
        self.bytes.extend_from_slice(piece).is_ok()
    }
}
