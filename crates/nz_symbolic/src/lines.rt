//! Reading constraints, token by token, in one pass over the bytes.
ghost use Rattle.std.specs.Prelude.{◌≡◌, ◌+◌, ◌≤◌, length, take, drop, IfOk, IfErr};
ghost use Rattle.nz_input.specs.Layouts.{AtPiece};
ghost use Rattle.nz_input.specs.Prefixes.{first_of};
ghost use Rattle.nz_text.specs.Skip.{Finds};
ghost use Rattle.nz_symbolic.specs.Refusals.{fault_at};
ghost use Rattle.nz_symbolic.specs.Sit.{role_at, at_lines};
ghost use Rattle.nz_symbolic.specs.Readings.{IsRunTo, opens, is_straight, fault_behind};
ghost use Rattle.nz_symbolic.specs.Fronts.{is_stop};
ghost use Rattle.nz_symbolic.specs.Lines.{IsReached, IsStopped, sit_of, course, follow_course, course_behind, reached_behind, of_gap};

use crate::fault::token_fault;
use crate::fronts::{Front, first_token};
use crate::point::{Point, Side};
use crate::symbol::{Relation, Role, Token};
use nz_input::{Fault, byte_at};
use nz_text::{Found, Span, TextFault, step};

/// How far a text has been read: to the end of a token of a role, which began at the start.
#[derive(Clone, Copy, Drop)]
pub struct Reached {
    pub at: usize,
    /// The end of the run of solid bytes that goes on here.
    pub end: usize,
    pub role: Role,
    pub start: usize,
    /// A byte straight behind the token could belong to it.
    pub is_open: bool,
}

/// Where the first place is that no text can have, and what is wrong there.
#[derive(Clone, Copy, Drop)]
pub struct Stopped {
    pub at: usize,
    pub fault: Fault,
}

/// Where in a constraint: at the last of so many terms of a sum.
#[derive(Clone, Copy, Drop)]
pub struct Course {
    pub side: Side,
    pub terms: usize,
    pub point: Point,
}

/// The rest of the run of solid bytes that goes on, or what stands behind it.
pub fn next_run(text: &[u8], at: usize, end: usize) -> Found
    requires within { at ≤ length text.now }
    requires run { IsRunTo text.now at end }
    ensures { Finds text.now at result }
{
    if at < end {
        Found::Piece(Span { start: at, end })
    } else {
        step(text, at)
    }
}

pub fn gap_fault(fault: TextFault) -> Fault
    ensures { result ≡ of_gap fault }
{
    match fault {
        TextFault::Byte => Fault::Byte,
        TextFault::OpenComment => Fault::OpenComment,
    }
}

fn straight(here: Reached, from: usize, n: usize) -> bool
    ensures { result ≡ is_straight here.is_open here.at from n }
{
    here.is_open && (here.at == from && n == 0)
}

fn fault_from(text: &[u8], wanted: Role, from: usize, n: usize) -> Fault
    requires { from + n ≤ length text.now }
    ensures { result ≡ fault_at (AtPiece wanted (take n (drop from text.now))) (first_of (drop (from + n) text.now)) }
{
    token_fault(wanted, &text[from..from + n], byte_at(text, from + n))
}

fn fault_of(text: &[u8], wanted: Role, here: Reached, from: usize, n: usize) -> Fault
    requires order { here.start ≤ here.at }
    requires within { here.at ≤ length text.now }
    requires place { from + n ≤ length text.now }
    ensures { result ≡ fault_behind text.now wanted here.at here.role here.start here.is_open from n }
{
    if straight(here, from, n) {
        token_fault(
            here.role,
            &text[here.start..here.at],
            byte_at(text, here.at),
        )
    } else {
        fault_from(text, wanted, from, n)
    }
}

/// The refusal where so many bytes from a place on can begin a token of the role, and no more.
pub fn refuse(text: &[u8], wanted: Role, here: Reached, from: usize, n: usize) -> Stopped
    requires order { here.start ≤ here.at }
    requires within { here.at ≤ length text.now }
    requires place { from + n ≤ length text.now }
    ensures at { result.at ≡ from + n }
    ensures fault { result.fault ≡ fault_behind text.now wanted here.at here.role here.start here.is_open from n }
{
    Stopped {
        at: from + n,
        fault: fault_of(text, wanted, here, from, n),
    }
}

/// Whether a byte straight behind the token could belong to it.
pub fn opens_at(token: Token) -> bool
    ensures { result ≡ opens token }
{
    match token {
        Token::Sign(_) => false,
        Token::Star => false,
        Token::Variable => false,
        Token::OpenIndex => false,
        Token::CloseIndex => false,
        Token::Tilde => false,
        Token::OpenModulus => false,
        Token::CloseModulus => false,
        Token::Stop { last } => last,
        Token::Relation(relation) => match relation {
            Relation::Above => true,
            Relation::Below => true,
            _ => false,
        },
        _ => true,
    }
}

fn wanted(course: Course) -> Role
    ensures { result ≡ role_at course.side course.terms course.point }
{
    match course.point {
        Point::AtSum => match course.side {
            Side::Left => Role::Line,
            Side::Right { .. } => Role::Term { full: false },
        },
        Point::AtTerm => Role::Term {
            full: course.terms == 400,
        },
        Point::AfterLiteral => Role::Part {
            full: course.terms == 400,
        },
        Point::AfterTerm => Role::Part {
            full: course.terms == 400,
        },
        Point::AfterOpen => Role::Bounded,
        Point::AfterParen => Role::Bounded,
        _ => Role::Fixed,
    }
}

fn to(side: Side, terms: usize, point: Point) -> Course
    ensures side { result.side ≡ side }
    ensures terms { result.terms ≡ terms }
    ensures point { result.point ≡ point }
{
    Course { side, terms, point }
}

fn follow(side: Side, terms: usize, token: Token) -> Course
    requires { terms ≤ 400 }
    ensures { result ≡ follow_course side terms token }
{
    match token {
        Token::Sign(_) => to(side, terms + 1, Point::AtTerm),
        Token::Relation(_) => to(Side::Right { modulus: false }, 0, Point::AtSum),
        Token::Tilde => to(Side::Right { modulus: true }, 0, Point::AtSum),
        Token::OpenModulus => to(side, terms, Point::AfterParen),
        _ => to(side, terms, Point::AfterClose),
    }
}

fn moved(here: Course, token: Token) -> Course
    requires { here.terms ≤ 400 }
    ensures { result ≡ course_behind here.side here.terms here.point token }
{
    let Course { side, terms, point } = here;
    match point {
        Point::AtSum => match token {
            Token::Sign(_) => to(side, 1, Point::AtTerm),
            Token::Literal(_) => to(side, 1, Point::AfterLiteral),
            _ => to(side, 1, Point::AfterVariable),
        },
        Point::AtTerm => match token {
            Token::Literal(_) => to(side, terms, Point::AfterLiteral),
            _ => to(side, terms, Point::AfterVariable),
        },
        Point::AfterLiteral => match token {
            Token::Star => to(side, terms, Point::AfterStar),
            Token::Variable => to(side, terms, Point::AfterVariable),
            _ => follow(side, terms, token),
        },
        Point::AfterStar => to(side, terms, Point::AfterVariable),
        Point::AfterVariable => to(side, terms, Point::AfterOpen),
        Point::AfterOpen => to(side, terms, Point::AfterIndex),
        Point::AfterIndex => to(side, terms, Point::AfterTerm),
        Point::AfterTerm => follow(side, terms, token),
        Point::AfterParen => to(side, terms, Point::AfterModulus),
        Point::AfterModulus => to(side, terms, Point::AfterClose),
        Point::AfterClose => to(side, terms, Point::AfterClose),
    }
}

fn last(token: Token) -> bool
    ensures { result ≡ is_stop token }
{
    match token {
        Token::Stop { .. } => true,
        _ => false,
    }
}

fn behind(wanted: Role, span: Span, front: Front) -> Reached
    requires { span.start + front.len ≤ span.end }
    ensures { result ≡ reached_behind wanted span front }
{
    Reached {
        at: span.start + front.len,
        end: span.end,
        role: wanted,
        start: span.start,
        is_open: opens_at(front.token),
    }
}

/// One constraint, up to its `;`, where so many follow it.
pub fn line(amb: u32, later: usize, text: &[u8], from: Reached) -> Result<Reached, Stopped>
    requires low { 1 ≤ amb }
    requires high { amb ≤ 64 }
    requires reached { IsReached text.now (sit_of amb later (course Side.Left 0 Point.AtSum)) from }
    ensures ok { IfOk result (λ r. IsReached text.now (at_lines amb later) r) }
    ensures err { IfErr result (λ s. IsStopped text.now s) }
{
    let mut spot = to(Side::Left, 0, Point::AtSum);
    let mut here = from;
    loop {
        let role = wanted(spot);
        match next_run(text, here.at, here.end) {
            Found::End => return Err(refuse(text, role, here, text.len(), 0)),
            Found::Bad { at, fault } => {
                return Err(Stopped {
                    at,
                    fault: gap_fault(fault),
                });
            }
            Found::Piece(span) => {
                match first_token(
                    amb,
                    later,
                    spot.side,
                    spot.terms,
                    spot.point,
                    &text[span.start..span.end],
                ) {
                    Err(n) => return Err(refuse(text, role, here, span.start, n)),
                    Ok(front) => {
                        here = behind(role, span, front);
                        if last(front.token) {
                            return Ok(here);
                        }
                        spot = moved(spot, front.token);
                    }
                }
            }
        }
    }
}
