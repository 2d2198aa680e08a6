//! What is found in a text.
ghost use Rattle.std.specs.Prelude.{◌≡◌};
ghost use Rattle.nz_text.specs.declared.found.TextRefusal.TheVariants as refusal;

use crate::NoMemory;

/// The bytes of a text from `start` to before `end`.
#[derive(Clone, Copy, PartialEq, Eq, Debug, Drop)]
pub struct Span {
    pub start: usize,
    pub end: usize,
}

/// What no text can have between its pieces.
#[derive(Clone, Copy, PartialEq, Eq, Debug, Drop)]
pub enum TextFault {
    /// A byte outside comments that is no blank and no printable byte of ASCII.
    Byte,
    /// A comment that is not closed, or a `/` that begins none.
    OpenComment,
}

/// What stands behind a place.
#[derive(Clone, Copy, PartialEq, Eq, Debug, Drop)]
pub enum Found {
    Piece(Span),
    End,
    Bad { at: usize, fault: TextFault },
}

/// Why the pieces of a text are not given.
#[derive(Clone, Copy, PartialEq, Eq, Debug, Drop)]
pub enum TextRefusal {
    Bad { at: usize, fault: TextFault },
    NoMemory,
}

impl From<NoMemory> for TextRefusal {
    ghost from_gives = { λ _ e. e ≡ refusal.NoMemory };

    fn from(_error: NoMemory) -> TextRefusal {
        TextRefusal::NoMemory
    }
}
