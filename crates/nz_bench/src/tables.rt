//! The tables of the reducer, on candidates that a fixed generator makes.
ghost use Rattle.std.specs.Prelude.{◌≡◌, length, IfOk};
ghost use Rattle.std.specs.List.{AllByRecursion as Each};
ghost use Rattle.nz_spec.specs.Vectors.{HasWidth};

use nz_reducer::{DegreeTable, ListTable, Table};
use nz_vec::{NoMemory, Row, Rows};
use std::alloc::Global;

/// How a table is asked whether an entry is at most a candidate.
#[derive(Clone, Copy)]
pub enum Asking {
    /// The list of all entries for the first one.
    List,
    /// The table by sums for the first one.
    Sums,
    /// The table by sums for any one.
    Any,
    /// The table by sums for the first one, with the number of comparisons.
    Counted,
}

/// How the table is asked by this word.
pub fn asking_of(word: &[u8]) -> Option<Asking> {
    if word == b"list".as_slice() {
        return Some(Asking::List);
    }
    if word == b"sums".as_slice() {
        return Some(Asking::Sums);
    }
    if word == b"any".as_slice() {
        return Some(Asking::Any);
    }
    if word == b"counted".as_slice() {
        return Some(Asking::Counted);
    }
    None
}

// How many candidates there are of this dimension.
fn count_for(width: usize) -> usize {
    if width > 6 { 5_000 } else { 10_000 }
}

// So many candidates, with entries from 0 to 99.
fn candidates(alloc: Global, count: usize, width: usize) -> Result<Rows<i64>, NoMemory>
    ensures { IfOk result (Each (HasWidth width)) }
{
    let mut rows = Rows::new(alloc);
    let mut number = 1;
    for _place in 0..count {
        let row = candidate(alloc, number, width)?;
        rows.push(row)?;
        number = following(number.wrapping_add(width as u64));
    }
    Ok(rows)
}

// The candidate that the generator gives from this number on.
fn candidate(alloc: Global, begun: u64, width: usize) -> Result<Row<i64>, NoMemory>
    ensures { IfOk result (HasWidth width) }
{
    let mut values = Vec::new(alloc);
    let mut number = begun;
    for _place in 0..width {
        number = following(number);
        match values.push(entry_of(number)) {
            Ok(()) => {}
            Err(_) => return Err(NoMemory),
        }
    }
    Ok(Row::from_vec(values))
}

// The number that follows this one: a linear congruential generator with the constants of Knuth's MMIX.
fn following(number: u64) -> u64 {
    number
        .wrapping_mul(6364136223846793005)
        .wrapping_add(1442695040888963407)
}

// An entry from the upper bits, which repeat least.
fn entry_of(number: u64) -> i64 {
    ((number >> 33) % 100) as i64
}

/// How many candidates of this dimension are kept, where each one that has an entry at most it is left
/// out; or the number of comparisons.
pub fn asked(alloc: Global, asking: Asking, width: usize) -> Result<usize, NoMemory> {
    let rows = candidates(alloc, count_for(width), width)?;
    match asking {
        Asking::List => listed(alloc, &rows, width),
        Asking::Sums => summed(alloc, &rows, width),
        Asking::Any => quickly(alloc, &rows, width),
        Asking::Counted => compared(alloc, &rows, width),
    }
}

fn listed(alloc: Global, rows: &Rows<i64>, width: usize) -> Result<usize, NoMemory>
    requires { Each (HasWidth width) rows.now }
{
    let mut table = ListTable::new(alloc, width)?;
    for place in 0..rows.len() {
        let row = rows.at(place);
        if table.first(row).is_none() {
            table.put(row)?;
        }
    }
    Ok(table.len())
}

fn summed(alloc: Global, rows: &Rows<i64>, width: usize) -> Result<usize, NoMemory>
    requires { Each (HasWidth width) rows.now }
{
    let mut table = DegreeTable::new(alloc, width)?;
    for place in 0..rows.len() {
        let row = rows.at(place);
        if table.first(row).is_none() {
            table.put(row)?;
        }
    }
    Ok(table.len())
}

fn quickly(alloc: Global, rows: &Rows<i64>, width: usize) -> Result<usize, NoMemory>
    requires { Each (HasWidth width) rows.now }
{
    let mut table = DegreeTable::new(alloc, width)?;
    for place in 0..rows.len() {
        let row = rows.at(place);
        if !table.has_any_below(row) {
            table.put(row)?;
        }
    }
    Ok(table.len())
}

fn compared(alloc: Global, rows: &Rows<i64>, width: usize) -> Result<usize, NoMemory>
    requires { Each (HasWidth width) rows.now }
{
    let mut table = DegreeTable::new(alloc, width)?;
    let mut total: usize = 0;
    for place in 0..rows.len() {
        let row = rows.at(place);
        let (found, count) = table.first_counted(row);
        total = total.saturating_add(count);
        if found.is_none() {
            table.put(row)?;
        }
    }
    Ok(total)
}
