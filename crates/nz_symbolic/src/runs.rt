//! The token that a run of solid bytes is, where a break stands behind each token.
ghost use Rattle.std.specs.Prelude.{◌≡◌, ℕ, ◌<◌, length};
ghost use Rattle.nz_text.specs.Bytes.{IsSolid};
ghost use Rattle.nz_input.specs.Sit.{AtEntry};
ghost use Rattle.nz_symbolic.specs.Sit.{InPlain, AtConstraints, AtName, AtFigure};
ghost use Rattle.nz_symbolic.specs.Readings.{IsFirst};

use crate::fronts::Front;
use crate::symbol::Token;
use nz_input::{common, count, number, word};

/// The count of constraints, or how many bytes can begin one.
pub fn counted(piece: &[u8]) -> Result<Front, usize>
    requires some { 0 < length piece.now }
    requires solid { IsSolid piece.now }
    ensures { (d : ℕ) → IsFirst (AtConstraints d) piece.now result }
{
    match count(piece) {
        Ok(symbol) => Ok(Front {
            token: Token::Plain(symbol),
            len: piece.len(),
        }),
        Err(n) => Err(n),
    }
}

/// A number of an old matrix, or how many bytes can begin one.
pub fn figured(piece: &[u8]) -> Result<Front, usize>
    requires some { 0 < length piece.now }
    requires solid { IsSolid piece.now }
    ensures { (fixed n c more : ℕ) → IsFirst (AtFigure fixed n c more) piece.now result }
{
    match number(piece) {
        Ok(symbol) => Ok(Front {
            token: Token::Plain(symbol),
            len: piece.len(),
        }),
        Err(n) => Err(n),
    }
}

/// The word `symbolic`, or how many bytes can begin it.
pub fn named(piece: &[u8]) -> Result<Front, usize>
    requires some { 0 < length piece.now }
    requires solid { IsSolid piece.now }
    ensures { (d n : ℕ) → IsFirst (AtName d n) piece.now result }
{
    let n = common(piece, b"symbolic");
    if n == piece.len() && n == 8 {
        Ok(Front {
            token: Token::Symbolic,
            len: n,
        })
    } else {
        Err(n)
    }
}

/// The word with which an entry begins, `constraints` being one, or how many bytes can begin one.
pub fn entering(piece: &[u8]) -> Result<Front, usize>
    requires some { 0 < length piece.now }
    requires solid { IsSolid piece.now }
    ensures { (d : ℕ) → IsFirst (InPlain (AtEntry d)) piece.now result }
{
    let m = common(piece, b"constraints");
    if m == piece.len() && m == 11 {
        return Ok(Front {
            token: Token::Constraints,
            len: m,
        });
    }
    match word(piece) {
        Ok(symbol) => Ok(Front {
            token: Token::Plain(symbol),
            len: piece.len(),
        }),
        Err(n) => Err(n.max(m)),
    }
}
