//! Which symbol of a role a piece stands for.
ghost use Rattle.std.specs.Prelude.{◌≡◌, ◌≤◌, ◌<◌, ◌^◌, length, take, drop, pos, neg_ℤ};
ghost use Rattle.nz_input.specs.declared.symbol.Role.TheVariants.{Dimensional, Counting, Numeric, First, Entering};
ghost use Rattle.nz_input.specs.Stops.{IsRun, IsSpelled, IsBehindSign, IsSign, IsUnsigned, IsCommon, Compares};

use crate::kind::{WORDS, Word};
use crate::symbol::{Role, Symbol};

/// Digits in front of a piece.
#[derive(Clone, Copy, Drop)]
pub struct DigitFront {
    pub len: usize,
    pub total: u64,
}

/// The longest run of digits in front with a value of at most the greatest.
pub fn digit_run(piece: &[u8], greatest: u64) -> DigitFront
    requires { greatest ≤ 10 ^ 18 }
    ensures { IsRun piece.now greatest result.len result.total }
{
    let mut len = 0;
    let mut total: u64 = 0;
    while len < piece.len() {
        let b = piece[len];
        if b < b'0' || b > b'9' {
            return DigitFront { len, total };
        }
        let more = total * 10 + (b - b'0') as u64;
        if more > greatest {
            return DigitFront { len, total };
        }
        total = more;
        len += 1;
    }
    DigitFront { len, total }
}

pub fn dimension(piece: &[u8]) -> Result<Symbol, usize>
    requires { 0 < length piece.now }
    ensures { IsSpelled Dimensional piece.now result }
{
    let front = digit_run(piece, 64);
    if front.len == piece.len() && front.total >= 1 {
        Ok(Symbol::Dimension(front.total as u32))
    } else {
        Err(front.len)
    }
}

pub fn count(piece: &[u8]) -> Result<Symbol, usize>
    requires { 0 < length piece.now }
    ensures { IsSpelled Counting piece.now result }
{
    let front = digit_run(piece, 1024);
    if front.len == piece.len() {
        Ok(Symbol::Count(front.total as u32))
    } else {
        Err(front.len)
    }
}

const GREATEST: u64 = 1_000_000_000_000_000_000;

fn behind_sign(piece: &[u8], from: usize) -> Result<u64, usize>
    requires within { from ≤ length piece.now }
    requires some { 0 < length piece.now }
    requires sign { IsSign (take from piece.now) }
    requires unsigned { IsUnsigned (take from piece.now) (drop from piece.now) }
    ensures { IsBehindSign piece.now from result }
{
    let front = digit_run(&piece[from..], GREATEST);
    if from + front.len == piece.len() && front.len > 0 {
        Ok(front.total)
    } else {
        Err(from + front.len)
    }
}

fn above_zero(total: u64) -> i64
    requires { total ≤ 10 ^ 18 }
    ensures { result ≡ pos total }
{
    total as i64
}

fn below_zero(total: u64) -> i64
    requires { total ≤ 10 ^ 18 }
    ensures { result ≡ neg_ℤ (pos total) }
{
    -(total as i64)
}

pub fn number(piece: &[u8]) -> Result<Symbol, usize>
    requires { 0 < length piece.now }
    ensures { IsSpelled Numeric piece.now result }
{
    if piece[0] == b'-' {
        match behind_sign(piece, 1) {
            Ok(total) => Ok(Symbol::Number(below_zero(total))),
            Err(n) => Err(n),
        }
    } else if piece[0] == b'+' {
        match behind_sign(piece, 1) {
            Ok(total) => Ok(Symbol::Number(above_zero(total))),
            Err(n) => Err(n),
        }
    } else {
        match behind_sign(piece, 0) {
            Ok(total) => Ok(Symbol::Number(above_zero(total))),
            Err(n) => Err(n),
        }
    }
}

/// How many bytes in front are the same.
pub fn common(left: &[u8], right: &[u8]) -> usize
    ensures { IsCommon left.now right.now result }
{
    let mut n = 0;
    while n < left.len() && n < right.len() {
        if left[n] != right[n] {
            return n;
        }
        n += 1;
    }
    n
}

pub fn first(piece: &[u8]) -> Result<Symbol, usize>
    requires { 0 < length piece.now }
    ensures { IsSpelled First piece.now result }
{
    let n = common(piece, b"amb_space");
    if n == piece.len() && n == 9 {
        Ok(Symbol::Amb)
    } else {
        Err(n)
    }
}

/// A piece beside a word: it is the word, or has so many bytes in common with it.
#[derive(Clone, Copy, PartialEq, Eq, Debug, Drop)]
pub enum Beside {
    Same(Word),
    Differs(usize),
}

fn compare_word(piece: &[u8], at: usize) -> Beside
    requires { at < length WORDS }
    ensures { Compares piece.now at result }
{
    let w = WORDS[at];
    let text = w.text();
    let n = common(piece, text);
    if n == piece.len() && n == text.len() {
        Beside::Same(w)
    } else {
        Beside::Differs(n)
    }
}

pub fn word(piece: &[u8]) -> Result<Symbol, usize>
    requires { 0 < length piece.now }
    ensures { IsSpelled Entering piece.now result }
{
    let mut best: usize = 0;
    for at in 0..WORDS.len() {
        match compare_word(piece, at) {
            Beside::Same(w) => return Ok(Symbol::Begin(w)),
            Beside::Differs(n) => best = best.max(n),
        }
    }
    Err(best)
}

/// The symbol of the role that the piece stands for, or how many of its bytes can begin one.
pub fn spell(role: Role, piece: &[u8]) -> Result<Symbol, usize>
    requires { 0 < length piece.now }
    ensures { IsSpelled role piece.now result }
{
    match role {
        Role::First => first(piece),
        Role::Dimensional => dimension(piece),
        Role::Entering => word(piece),
        Role::Counting => count(piece),
        Role::Numeric => number(piece),
    }
}
