//! What is read of a text, before it is known to be an outcome.
ghost use Rattle.std.specs.Prelude.{◌≡◌, ◌<◌, ◌++◌, ◌∷◌, [], List, Option, MatchResult, IfOk, IfSome};
ghost use Rattle.std.specs.List.{AllByRecursion as Each};
ghost use Rattle.nz_spec.specs.Vectors.{Vector};
ghost use Rattle.nz_blocks.specs.Outcomes.{OutcomeData, IsOutcome, number};
ghost use Rattle.nz_blocks.specs.Held.{IsHeld};
ghost use Rattle.nz_blocks.specs.Output.{text_of};
ghost use Rattle.nz_blocks.specs.Sections.{lists_of};

use crate::AskedList;
use crate::reading_asked::asked_at_end;
use crate::reading_sections::{all_sections, head_of};
use crate::reading_simplices::simplices_from;
use crate::refusal::BlockRefusal;
use nz_vec::{PlaceLists, Rows};
use std::alloc::Global;
use std::marker::Model;

/// The lists of a text, as those of an outcome.
#[derive(Drop)]
pub struct Draft {
    pub amb: u32,
    pub level: bool,
    pub denominator: Option<i128>,
    pub modules: Option<Rows<i128>>,
    pub hilbert: Option<Rows<i128>>,
    pub degree_one: Option<Rows<i128>>,
    pub vertices: Option<Rows<i128>>,
    pub rays: Option<Rows<i128>>,
    pub support: Option<Rows<i128>>,
    pub equations: Option<Rows<i128>>,
    pub generators: Option<Rows<i128>>,
    pub simplices: Option<PlaceLists>,
    pub asked: Option<AskedList>,
}

impl Model for Draft {
    ghost use Rattle.nz_blocks.specs.Outcomes.{OutcomeData};

    ghost Value = { OutcomeData };

    ghost view = { λ o. record { amb = o.amb; level = o.level; denominator = o.denominator; modules = o.modules; hilbert = o.hilbert; degree_one = o.degree_one; vertices = o.vertices; rays = o.rays; support = o.support; equations = o.equations; generators = o.generators; simplices = o.simplices; asked = o.asked } };
}

/// How many rows there are, and 0 where there is no list.
pub fn number_of(rows: &Option<Rows<i128>>) -> usize
    ensures { result ≡ number rows.now }
{
    match rows {
        Some(rows) => rows.len(),
        None => 0,
    }
}

// The last list, which is taken out.
fn taken(lists: &mut Vec<Option<Rows<i128>>>) -> Option<Rows<i128>>
    ensures { (front : List (Option (List Vector))) (rows : Option (List Vector)) → lists.old.items ≡ front ++ rows ∷ [] → (result ≡ rows) × (lists.new.items ≡ front) }
{
    match lists.pop() {
        Some(rows) => rows,
        None => None,
    }
}

// The draft with these lists, of which the last is that of the simplices.
fn draft_of(
    alloc: Global,
    amb: u32,
    level: bool,
    denominator: Option<i128>,
    lists: Vec<Option<Rows<i128>>>,
    asked: Option<AskedList>,
) -> Result<Draft, BlockRefusal>
    ensures whole { (o : OutcomeData) → IfSome o.simplices (Each (Each (λ p. p < number o.generators))) → amb ≡ o.amb → level ≡ o.level → denominator ≡ o.denominator → lists.items ≡ lists_of o → asked ≡ o.asked → MatchResult result (λ d. d ≡ o) (λ e. e ≡ BlockRefusal.NoMemory) }
    ensures places { IfOk result (λ d. IfSome d.simplices (Each (Each (λ p. p < number d.generators)))) }
{
    let mut lists = lists;
    let rows = taken(&mut lists);
    let generators = taken(&mut lists);
    let simplices = match simplices_from(alloc, &rows, number_of(&generators)) {
        Ok(simplices) => simplices,
        Err(refusal) => return Err(refusal),
    };
    let equations = taken(&mut lists);
    let support = taken(&mut lists);
    let rays = taken(&mut lists);
    let vertices = taken(&mut lists);
    let degree_one = taken(&mut lists);
    let hilbert = taken(&mut lists);
    let modules = taken(&mut lists);
    Ok(Draft {
        amb,
        level,
        denominator,
        modules,
        hilbert,
        degree_one,
        vertices,
        rays,
        support,
        equations,
        generators,
        simplices,
        asked,
    })
}

// How many rows the list of the Hilbert basis has.
fn hilbert_size(lists: &[Option<Rows<i128>>]) -> usize
    ensures { (o : OutcomeData) → lists.now ≡ lists_of o → result ≡ number o.hilbert }
{
    if 1 < lists.len() {
        number_of(&lists[1])
    } else {
        0
    }
}

/// The lists that a text shows.
pub fn read_draft(alloc: Global, text: &[u8]) -> Result<Draft, BlockRefusal>
    ensures whole { (o : OutcomeData) → IsOutcome o → IsHeld o → text.now ≡ text_of o → MatchResult result (λ d. d ≡ o) (λ e. e ≡ BlockRefusal.NoMemory) }
    ensures places { IfOk result (λ d. IfSome d.simplices (Each (Each (λ p. p < number d.generators)))) }
{
    let head = match head_of(text) {
        Some(head) => head,
        None => return Err(BlockRefusal::Bad),
    };
    if head.value.amb > 64 {
        return Err(BlockRefusal::Bad);
    }
    let sections = match all_sections(alloc, text, head.next, head.value.level) {
        Ok(sections) => sections,
        Err(refusal) => return Err(refusal),
    };
    let size = hilbert_size(sections.value.as_slice());
    let asked = match asked_at_end(alloc, text, sections.next, size) {
        Ok(asked) => asked,
        Err(refusal) => return Err(refusal),
    };
    draft_of(
        alloc,
        head.value.amb as u32,
        head.value.level,
        head.value.denominator,
        sections.value,
        asked,
    )
}
