//! Asked vectors with their answers.
ghost use Rattle.std.specs.Prelude.{◌≡◌, ◌<◌, ◌++◌, ◌∷◌, [], length, get_or, OnOk, OnErr};

use nz_member::Reply;
use nz_vec::{NoMemory, Row};
use std::alloc::Global;
use std::marker::Model;

/// A list of vectors, each with what is answered of it.
#[derive(Drop)]
pub struct AskedList {
    asked: Vec<(Row<i128>, Reply<i128>)>,
}

impl Model for AskedList {
    ghost use Rattle.std.specs.Prelude.{List};
    ghost use Rattle.nz_blocks.specs.Outcomes.{Asked};

    ghost Value = { List Asked };

    ghost view = { λ a. a.asked.items };
}

impl AskedList {
    pub fn new(alloc: Global) -> AskedList
        ensures { result ≡ [] }
    {
        AskedList {
            asked: Vec::new(alloc),
        }
    }

    pub fn push(&mut self, entry: (Row<i128>, Reply<i128>)) -> Result<(), NoMemory>
        ensures ok { OnOk result (self.new ≡ self.old ++ entry ∷ []) }
        ensures err { OnErr result (self.new ≡ self.old) }
    {
        match self.asked.push(entry) {
            Ok(()) => Ok(()),
            Err(_) => Err(NoMemory),
        }
    }

    pub fn len(&self) -> usize
        ensures { result ≡ length self.now }
    {
        self.asked.len()
    }

    pub fn at(&self, place: usize) -> &(Row<i128>, Reply<i128>)
        requires { place < length self.now }
        ensures { result.now ≡ get_or self.now place result.now }
    {
        &self.asked[place]
    }
}
