ghost use Rattle.std.specs.Prelude.{◌≡◌, ℕ, ◌<◌, ◌++◌, ◌∷◌, [], List, length, Contains, MatchBool, OnOk, OnErr, slice_index, slice_index_or};

use crate::NoMemory;
use smallvec::SmallVec;
use std::alloc::Global;
use std::marker::Model;

/// A list of places in another list. Up to eight stand in the value itself.
#[derive(Drop)]
pub struct Places {
    places: SmallVec<usize, 8>,
}

impl Model for Places {
    ghost use Rattle.std.specs.Prelude.{List, ℕ};

    ghost Value = { List ℕ };

    ghost view = { λ p. p.places.items };
}

impl Places {
    pub fn new(alloc: Global) -> Places
        ensures { result ≡ [] }
    {
        Places {
            places: SmallVec::new(alloc),
        }
    }

    pub fn push(&mut self, entry: usize) -> Result<(), NoMemory>
        ensures ok { OnOk result (self.new ≡ self.old ++ entry ∷ []) }
        ensures err { OnErr result (self.new ≡ self.old) }
    {
        match self.places.push(entry) {
            Ok(()) => Ok(()),
            Err(_) => Err(NoMemory),
        }
    }

    pub fn len(&self) -> usize
        ensures { result ≡ length self.now }
    {
        self.places.len()
    }

    pub fn at(&self, place: usize) -> usize
        requires { place < length self.now }
        ensures { result ≡ slice_index self.now place }
    {
        self.places[place]
    }

    pub fn contains(&self, place: usize) -> bool
        ensures { MatchBool result (Contains self.now place) (¬ Contains self.now place) }
    {
        for index in 0..self.len() {
            if self.at(index) == place {
                return true;
            }
        }
        false
    }
}

/// A list of lists of places.
#[derive(Drop)]
pub struct PlaceLists {
    lists: Vec<Places>,
}

impl Model for PlaceLists {
    ghost use Rattle.std.specs.Prelude.{List, ℕ};

    ghost Value = { List (List ℕ) };

    ghost view = { λ p. p.lists.items };
}

impl PlaceLists {
    pub fn new(alloc: Global) -> PlaceLists
        ensures { result ≡ [] }
    {
        PlaceLists {
            lists: Vec::new(alloc),
        }
    }

    pub fn push(&mut self, entry: Places) -> Result<(), NoMemory>
        ensures ok { OnOk result (self.new ≡ self.old ++ entry ∷ []) }
        ensures err { OnErr result (self.new ≡ self.old) }
    {
        match self.lists.push(entry) {
            Ok(()) => Ok(()),
            Err(_) => Err(NoMemory),
        }
    }

    pub fn len(&self) -> usize
        ensures { result ≡ length self.now }
    {
        self.lists.len()
    }

    pub fn at(&self, place: usize) -> &Places
        requires { place < length self.now }
        ensures { result.now ≡ slice_index_or self.now place [] }
    {
        &self.lists[place]
    }
}
