//! Pieces of a text, with gaps between them.
ghost use Rattle.std.specs.Prelude.{◌≡◌, ℕ, ◌+◌, ◌-◌, ◌≤◌, ◌<◌, List, [], ◌∷◌, drop, take, length};
ghost use Rattle.nz_text.specs.Bytes.{class_of, IsSolid, IsEdge};
ghost use Rattle.nz_text.specs.Skip.{skip, Goes, Lands, Finds};
ghost use Rattle.nz_text.specs.Pieces.{IsStep};

use crate::found::{Found, Span, TextFault};

/// What a byte is, outside comments.
#[derive(Clone, Copy, PartialEq, Eq, Debug, Drop)]
pub enum Class {
    Blank,
    Slash,
    Solid,
    Foreign,
}

/// Outside comments; behind a `/`; in a comment; in a comment behind a `*`.
#[derive(Clone, Copy, PartialEq, Eq, Debug, Drop)]
pub enum Mode {
    Outside,
    Opening,
    Inside,
    Closing,
}

/// Where a byte leads.
#[derive(Clone, Copy, PartialEq, Eq, Debug, Drop)]
pub enum Move {
    Go(Mode),
    Reach,
    Open,
}

/// Where a gap ends, or a comment that is not closed.
#[derive(Clone, Copy, PartialEq, Eq, Debug, Drop)]
pub enum Landing {
    Reached(usize),
    Opened(usize),
}

/// What sort of byte it is.
pub fn sort_of(b: u8) -> Class
    ensures { result ≡ class_of b }
{
    match b {
        b' ' | b'\t' | b'\n' | b'\r' => Class::Blank,
        b'/' => Class::Slash,
        0x21..=0x7e => Class::Solid,
        _ => Class::Foreign,
    }
}

#[tactic(auto, unfolding(crate::specs::Skip::skip))]
fn turn(mode: Mode, b: u8) -> Move
    ensures { (rest : List ℕ) → Goes mode b rest result }
{
    match mode {
        Mode::Outside => match sort_of(b) {
            Class::Blank => Move::Go(Mode::Outside),
            Class::Slash => Move::Go(Mode::Opening),
            _ => Move::Reach,
        },
        Mode::Opening => {
            if b == b'*' {
                Move::Go(Mode::Inside)
            } else {
                Move::Open
            }
        }
        Mode::Inside => {
            if b == b'*' {
                Move::Go(Mode::Closing)
            } else {
                Move::Go(Mode::Inside)
            }
        }
        Mode::Closing => {
            if b == b'/' {
                Move::Go(Mode::Outside)
            } else if b == b'*' {
                Move::Go(Mode::Closing)
            } else {
                Move::Go(Mode::Inside)
            }
        }
    }
}

fn skip_gap(text: &[u8], from: usize) -> Landing
    requires { from ≤ length text.now }
    ensures { Lands text.now from result }
{
    let mut mode = Mode::Outside;
    let mut at = from;
    while at < text.len() {
        match turn(mode, text[at]) {
            Move::Go(next) => mode = next,
            Move::Reach => return Landing::Reached(at),
            Move::Open => return Landing::Opened(at),
        }
        at += 1;
    }
    match mode {
        Mode::Outside => Landing::Reached(at),
        _ => Landing::Opened(at),
    }
}

fn run_end(text: &[u8], from: usize) -> usize
    requires { from ≤ length text.now }
    ensures above { from ≤ result }
    ensures within { result ≤ length text.now }
    ensures solid { IsSolid (take (result - from) (drop from text.now)) }
    ensures edge { IsEdge (drop result text.now) }
{
    let mut at = from;
    while at < text.len() && sort_of(text[at]) == Class::Solid {
        at += 1;
    }
    at
}

fn find(text: &[u8], from: usize) -> Found
    requires { from ≤ length text.now }
    ensures { Finds text.now from result }
{
    match skip_gap(text, from) {
        Landing::Opened(at) => Found::Bad {
            at,
            fault: TextFault::OpenComment,
        },
        Landing::Reached(at) => {
            if at == text.len() {
                return Found::End;
            }
            match sort_of(text[at]) {
                Class::Foreign => Found::Bad {
                    at,
                    fault: TextFault::Byte,
                },
                _ => Found::Piece(Span {
                    start: at,
                    end: run_end(text, at),
                }),
            }
        }
    }
}

/// The next piece of the text.
pub fn step(text: &[u8], from: usize) -> Found
    requires { from ≤ length text.now }
    ensures { IsStep text.now from result }
{
    find(text, from)
}
