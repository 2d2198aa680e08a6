//! All pieces of a text.
ghost use Rattle.std.specs.Prelude.{◌≡◌, MatchResult};
ghost use Rattle.nz_text.specs.Pieces.{ArePieces, IsTextRefusal};

use crate::found::{Found, TextRefusal};
use crate::pieces::step;
use crate::spans::Spans;
use std::alloc::Global;

/// The pieces of the text in order, or its first fault.
pub fn tokens(alloc: Global, text: &[u8]) -> Result<Spans, TextRefusal>
    ensures { MatchResult result (λ spans. ArePieces text.now spans) (λ e. IsTextRefusal text.now e) }
{
    let mut spans = Spans::new(alloc);
    let mut at = 0;
    loop {
        match step(text, at) {
            Found::End => return Ok(spans),
            Found::Bad { at, fault } => return Err(TextRefusal::Bad { at, fault }),
            Found::Piece(span) => {
                spans.push(span)?;
                at = span.end;
            }
        }
    }
}
