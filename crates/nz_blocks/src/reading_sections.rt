//! The head of a text and its blocks of rows.
ghost use Rattle.std.specs.Prelude.{◌≡◌, ℕ, ℤ, ◌+◌, ◌<◌, ◌≤◌, ◌++◌, [], List, Bool, Option, drop, length, slice_index_or, IfSome, FitsSigned, MatchOption, MatchResult};
ghost use Rattle.std.specs.Int.{w128};
ghost use Rattle.std.specs.List.{AllByRecursion as Each};
ghost use Rattle.nz_vec.specs.Texts.{Text};
ghost use Rattle.nz_spec.specs.Vectors.{Vector};
ghost use Rattle.nz_blocks.specs.Beginnings.{First, BeginsBlock};
ghost use Rattle.nz_blocks.specs.Held.{AreHeldRows};
ghost use Rattle.nz_blocks.specs.Output.{space_lines, denominator_line, head};
ghost use Rattle.nz_blocks.specs.Sections.{headings, sections};
ghost use Rattle.nz_blocks.specs.Readings.{level_line};

use crate::reading_blocks::{behind, block, number_line};
use crate::reading_numbers::{Found, digits};
use crate::refusal::BlockRefusal;
use crate::text::{hilbert_heading_of, rays_heading_of};
use nz_vec::Rows;
use std::alloc::Global;

/// What the lines above the blocks say.
#[derive(Clone, Copy, Drop)]
pub struct Head {
    pub amb: u128,
    pub level: bool,
    pub denominator: Option<i128>,
}

// Whether the second line says that there is a level.
fn level_at(text: &[u8], from: usize) -> Option<Found<bool>>
    ensures { (level : Bool) (s : Text) → drop from text.now ≡ level_line level ++ s → MatchOption result ⊥ (λ f. (f.value ≡ level) × (drop f.next text.now ≡ s)) }
{
    match behind(text, from, b"\ninhomogeneous\n".as_slice()) {
        Some(next) => Some(Found { value: true, next }),
        None => match behind(text, from, b"\nhomogeneous\n".as_slice()) {
            Some(next) => Some(Found { value: false, next }),
            None => None,
        },
    }
}

// What degrees are divided by, where a line says it.
fn denominator_at(text: &[u8], from: usize) -> Option<Found<Option<i128>>>
    ensures { (g : Option ℤ) (s : Text) → IfSome g (FitsSigned w128) → ¬ First (λ b. b ≡ 103) s → drop from text.now ≡ denominator_line g ++ s → MatchOption result ⊥ (λ f. (f.value ≡ g) × (drop f.next text.now ≡ s)) }
{
    let start = match behind(text, from, b"grading denominator ".as_slice()) {
        Some(start) => start,
        None => {
            return Some(Found {
                value: None,
                next: from,
            });
        }
    };
    match number_line(text, start) {
        Some(found) => Some(Found {
            value: Some(found.value),
            next: found.next,
        }),
        None => None,
    }
}

// What the first two lines say.
#[derive(Clone, Copy, Drop)]
struct Space {
    amb: u128,
    level: bool,
}

// The two lines with which a text begins.
fn space_of(text: &[u8]) -> Option<Found<Space>>
    ensures { (amb : ℕ) (level : Bool) (s : Text) → amb ≤ 64 → text.now ≡ space_lines amb level ++ s → MatchOption result ⊥ (λ f. (f.value.amb ≡ amb) × (f.value.level ≡ level) × (drop f.next text.now ≡ s)) }
{
    let from = match behind(text, 0, b"amb_space ".as_slice()) {
        Some(from) => from,
        None => return None,
    };
    let amb = match digits(text, from) {
        Some(amb) => amb,
        None => return None,
    };
    match level_at(text, amb.next) {
        Some(level) => Some(Found {
            value: Space {
                amb: amb.value,
                level: level.value,
            },
            next: level.next,
        }),
        None => None,
    }
}

/// The lines with which a text begins.
pub fn head_of(text: &[u8]) -> Option<Found<Head>>
    ensures { (amb : ℕ) (level : Bool) (g : Option ℤ) (s : Text) → amb ≤ 64 → IfSome g (FitsSigned w128) → ¬ First (λ b. b ≡ 103) s → text.now ≡ head amb level g ++ s → MatchOption result ⊥ (λ f. (f.value.amb ≡ amb) × (f.value.level ≡ level) × (f.value.denominator ≡ g) × (drop f.next text.now ≡ s)) }
{
    let space = match space_of(text) {
        Some(space) => space,
        None => return None,
    };
    match denominator_at(text, space.next) {
        Some(denominator) => Some(Found {
            value: Head {
                amb: space.value.amb,
                level: space.value.level,
                denominator: denominator.value,
            },
            next: denominator.next,
        }),
        None => None,
    }
}

// The heading of the block of rows at this place in their order.
fn heading_of(level: bool, place: usize) -> &'static [u8]
    requires { place < 9 }
    ensures { result.now ≡ slice_index_or (headings level) place [] }
{
    match place {
        0 => b" module generators:".as_slice(),
        1 => hilbert_heading_of(level),
        2 => b" degree 1 elements:".as_slice(),
        3 => b" vertices of polyhedron:".as_slice(),
        4 => rays_heading_of(level),
        5 => b" support hyperplanes:".as_slice(),
        6 => b" equations:".as_slice(),
        7 => b" extreme generators:".as_slice(),
        _ => b" simplices:".as_slice(),
    }
}

/// The rows of each block, in the order of the blocks.
pub fn all_sections(
    alloc: Global,
    text: &[u8],
    from: usize,
    level: bool,
) -> Result<Found<Vec<Option<Rows<i128>>>>, BlockRefusal>
    ensures { (xs : List (Option (List Vector))) (s : Text) → Each AreHeldRows xs → length xs ≡ 9 → Each (λ h. ¬ BeginsBlock h s) (headings level) → drop from text.now ≡ sections (headings level) xs ++ s → MatchResult result (λ f. (f.value.items ≡ xs) × (drop f.next text.now ≡ s)) (λ e. e ≡ BlockRefusal.NoMemory) }
{
    let mut lists = Vec::new(alloc);
    let mut place = from;
    for index in 0..9 {
        let found = match block(alloc, text, place, heading_of(level, index)) {
            Ok(found) => found,
            Err(refusal) => return Err(refusal),
        };
        match lists.push(found.value) {
            Ok(()) => {}
            Err(_) => return Err(BlockRefusal::NoMemory),
        }
        place = found.next;
    }
    Ok(Found {
        value: lists,
        next: place,
    })
}
