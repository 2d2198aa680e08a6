ghost use Rattle.std.specs.Prelude.{◌≡◌, ◌≤◌, ◌↔◌, ◌⊎◌, ◌++◌, ◌∷◌, [], None, slice_get, if◌then◌else◌, IsTrue, IsFalse, IfOk, length, vec_capacity};

use nz_vec::NoMemory;
use std::alloc::Global;

/// The pairs that came. They are lost as soon as more came than there is room for.
#[derive(Drop)]
pub struct Pairs {
    list: Vec<(u64, u64)>,
    room: usize,
    lost: bool,
    ghost reserved: { room ≤ vec_capacity list },
}

impl Pairs {
    /// The memory for the whole room is taken here, so that no pair can want it later.
    pub fn new(alloc: Global, room: usize) -> Result<Pairs, NoMemory>
        ensures empty { IfOk result (λ pairs. pairs.list.items ≡ []) }
        ensures space { IfOk result (λ pairs. pairs.room ≡ room) }
        ensures kept { IfOk result (λ pairs. IsFalse pairs.lost) }
    {
        match Vec::with_capacity(alloc, room) {
            Ok(list) => Ok(Pairs {
                list,
                room,
                lost: false,
            }),
            Err(_) => Err(NoMemory),
        }
    }

    pub fn push(&mut self, pair: (u64, u64))
        ensures room { self.new.room ≡ self.old.room }
        ensures lost { IsTrue self.new.lost ↔ (IsTrue self.old.lost ⊎ (self.old.room ≤ length self.old.list.items)) }
        ensures kept { IsFalse self.new.lost → self.new.list.items ≡ self.old.list.items ++ pair ∷ [] }
    {
        if self.lost || self.list.len() >= self.room {
            self.lost = true;
            return;
        }
        if self.list.push(pair).is_err() {
            self.lost = true;
        }
    }

    /// The pair at this place.
    pub fn at(&self, place: usize) -> Option<(u64, u64)>
        ensures { result ≡ (if self.now.lost then None else slice_get self.now.list.items place) }
    {
        if self.lost {
            return None;
        }
        self.list.get(place).copied()
    }
}
