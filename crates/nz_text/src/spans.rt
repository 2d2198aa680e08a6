ghost use Rattle.std.specs.Prelude.{◌≡◌, ◌<◌, ◌++◌, ◌∷◌, [], List, length, OnOk, OnErr, slice_get, Some};

use crate::NoMemory;
use crate::found::Span;
use std::alloc::Global;
use std::marker::Model;

/// A list of spans.
#[derive(Drop)]
pub struct Spans {
    spans: Vec<Span>,
}

impl Model for Spans {
    ghost use Rattle.std.specs.Prelude.{List};
    ghost use Rattle.nz_text.specs.declared.found.Span.{Span};

    ghost Value = { List Span };

    ghost view = { λ s. s.spans.items };
}

impl Spans {
    pub fn new(alloc: Global) -> Spans
        ensures { result ≡ [] }
    {
        Spans {
            spans: Vec::new(alloc),
        }
    }

    pub fn push(&mut self, entry: Span) -> Result<(), NoMemory>
        ensures ok { OnOk result (self.new ≡ self.old ++ entry ∷ []) }
        ensures err { OnErr result (self.new ≡ self.old) }
    {
        match self.spans.push(entry) {
            Ok(()) => Ok(()),
            Err(_) => Err(NoMemory),
        }
    }

    pub fn len(&self) -> usize
        ensures { result ≡ length self.now }
    {
        self.spans.len()
    }

    pub fn at(&self, place: usize) -> &Span
        requires { place < length self.now }
        ensures { slice_get self.now place ≡ Some result.now }
    {
        &self.spans[place]
    }
}
