ghost use Rattle.std.specs.Prelude.{◌≡◌, ℤ, pos, ◌<◌, ◌++◌, ◌∷◌, [], List, length, OnOk, OnErr, slice_index_or};

use crate::NoMemory;
use std::alloc::Global;
use std::marker::Model;

/// A list of integers.
#[derive(Drop)]
pub struct Ints {
    entries: Vec<i128>,
}

impl Model for Ints {
    ghost use Rattle.std.specs.Prelude.{List, ℤ};

    ghost Value = { List ℤ };

    ghost view = { λ l. l.entries.items };
}

impl Ints {
    pub fn new(alloc: Global) -> Ints
        ensures { result ≡ [] }
    {
        Ints {
            entries: Vec::new(alloc),
        }
    }

    pub fn push(&mut self, entry: i128) -> Result<(), NoMemory>
        ensures ok { OnOk result (self.new ≡ self.old ++ entry ∷ []) }
        ensures err { OnErr result (self.new ≡ self.old) }
    {
        match self.entries.push(entry) {
            Ok(()) => Ok(()),
            Err(_) => Err(NoMemory),
        }
    }

    pub fn len(&self) -> usize
        ensures { result ≡ length self.now }
    {
        self.entries.len()
    }

    pub fn at(&self, place: usize) -> i128
        requires { place < length self.now }
        ensures { result ≡ slice_index_or self.now place (pos 0) }
    {
        self.entries[place]
    }
}
