//! Reading a file in parts: its opening, and its entries one by one.
ghost use Rattle.std.specs.Prelude.{◌≡◌, ℕ, ◌+◌, ◌≤◌, [], drop, length, Option, IfOk, IfErr, MatchResult};
ghost use Rattle.nz_text.specs.Bytes.{IsEdge};
ghost use Rattle.nz_input.specs.Symbols.{Entry, items_of, goals_of};
ghost use Rattle.nz_input.specs.Shows.{Shows};
ghost use Rattle.nz_input.specs.Entries.{StartsOpening, StartsEntry, IsOpening, IsEntryAt, IsOpeningRefused, IsEntryRefused, IsPartRefusal};
ghost use Rattle.nz_input.specs.Parts.{entry_of, listed, start_of, CanBegin, IsPart, IsPartStopped, EndsPart, IsPlaceOf, IsTold};

use crate::file::Item;
use crate::kind::Goal;
use crate::reader::{Entries, Reader, State};
use crate::reading::{Stop, gap_fault, symbol_at, unfinished};
use crate::refusal::ReadRefusal;
use crate::symbol::Role;
use nz_text::{Found, place, step};
use std::alloc::Global;

/// An item, a goal, or that no entry is left.
#[derive(Drop)]
pub enum FileEntry {
    Item(Item),
    Goal(Goal),
    End,
}

/// The opening of a file, or its next entry in a space of this dimension.
#[derive(Clone, Copy, Drop)]
pub enum Part {
    Opening,
    Next(u32),
}

fn reader_of(alloc: Global, part: Part) -> Reader
    ensures { Shows result (start_of part) }
{
    match part {
        Part::Opening => Reader::new(alloc),
        Part::Next(amb) => Reader::before_entry(alloc, amb),
    }
}

/// What the reader makes of the end of the text. The last piece had the role and began at the start.
fn end_part(
    reader: Reader,
    text: &[u8],
    at: usize,
    role: Role,
    start: usize,
) -> Result<(Entries, usize), Stop>
    requires order { start ≤ at }
    requires within { at ≤ length text.now }
    ensures { EndsPart reader text.now at role start result }
{
    let wanted = reader.role();
    let Reader { entries, state } = reader;
    match state {
        State::Entry => Ok((entries, text.len())),
        _ => Err(unfinished(wanted, text, at, role, start)),
    }
}

/// The part with which the text begins, and the place behind it.
fn read_part(alloc: Global, part: Part, text: &[u8]) -> Result<(Entries, usize), Stop>
    requires { CanBegin part text.now }
    ensures ok { IfOk result (λ r. IsPart part text.now r.0 r.1) }
    ensures err { IfErr result (λ e. IsPartStopped part text.now e) }
{
    let mut reader = reader_of(alloc, part);
    let mut at = 0;
    let mut role = reader.role();
    let mut start = 0;
    loop {
        match step(text, at) {
            Found::End => return end_part(reader, text, at, role, start),
            Found::Bad { at, fault } => {
                return Err(Stop::At {
                    at,
                    fault: gap_fault(fault),
                });
            }
            Found::Piece(span) => {
                role = reader.role();
                start = span.start;
                match symbol_at(role, text, span.start, span.end) {
                    Err(stop) => return Err(stop),
                    Ok(symbol) => {
                        reader = reader.take(alloc, symbol)?;
                        at = span.end;
                        if reader.is_whole() {
                            return Ok((reader.entries, at));
                        }
                    }
                }
            }
        }
    }
}

/// The refusal at a place.
fn refusal(text: &[u8], from: usize, stop: Stop) -> ReadRefusal
    requires { IsPlaceOf text.now from stop }
    ensures { IsTold text.now from stop result }
{
    match stop {
        Stop::NoMemory => ReadRefusal::NoMemory,
        Stop::At { at, fault } => {
            let (line, column) = place(text, from + at);
            ReadRefusal::Grammar {
                line,
                column,
                fault,
            }
        }
    }
}

/// The dimension of the file, and the place behind it.
pub fn opening(alloc: Global, text: &[u8]) -> Result<(u32, usize), ReadRefusal>
    ensures ok { IfOk result (λ r. IsOpening text.now r.0 r.1) }
    ensures only { (d : ℕ) → StartsOpening text.now d → MatchResult result (λ r. r.0 ≡ d) (λ e. e ≡ ReadRefusal.NoMemory) }
    ensures grammar { IfErr result (λ e. IsPartRefusal (λ at fault. IsOpeningRefused text.now at fault) text.now 0 e) }
{
    match read_part(alloc, Part::Opening, text) {
        Ok((entries, end)) => Ok((entries.amb, end)),
        Err(stop) => Err(refusal(text, 0, stop)),
    }
}

fn entry_in(entries: Entries) -> FileEntry
    ensures { (e : Option Entry) → entries.items ≡ items_of (listed e) → entries.goals ≡ goals_of (listed e) → entry_of result ≡ e }
{
    let Entries {
        mut items,
        goals,
        ..
    } = entries;
    match items.pop() {
        Some(item) => FileEntry::Item(item),
        None => {
            if goals.len() > 0 {
                FileEntry::Goal(goals.at(0))
            } else {
                FileEntry::End
            }
        }
    }
}

/// The next entry from a place behind the dimension or an entry, and the place behind it.
pub fn entry(
    alloc: Global,
    text: &[u8],
    from: usize,
    amb: u32,
) -> Result<(FileEntry, usize), ReadRefusal>
    requires within { from ≤ length text.now }
    requires edge { IsEdge (drop from text.now) }
    requires dimension { 1 ≤ amb }
    ensures ok { IfOk result (λ r. IsEntryAt amb text.now from (entry_of r.0) r.1) }
    ensures only { (e : Option Entry) → StartsEntry amb (drop from text.now) e → MatchResult result (λ r. entry_of r.0 ≡ e) (λ f. f ≡ ReadRefusal.NoMemory) }
    ensures grammar { IfErr result (λ e. IsPartRefusal (λ at fault. IsEntryRefused amb (drop from text.now) at fault) text.now from e) }
{
    match read_part(alloc, Part::Next(amb), &text[from..]) {
        Ok((entries, end)) => Ok((entry_in(entries), from + end)),
        Err(stop) => Err(refusal(text, from, stop)),
    }
}
