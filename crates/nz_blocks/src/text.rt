//! The text of an outcome.
ghost use Rattle.std.specs.Prelude.{◌≡◌, ℕ, ◌++◌, ⊤, length, map, codes, IfOk, IfSome, OnOk, decimal};
ghost use Rattle.std.specs.List.{AllByRecursion as Each};
ghost use Rattle.nz_blocks.specs.Outcomes.{HasText};
ghost use Rattle.nz_blocks.specs.Output.{space_lines, denominator_line, head, level_word, heading_lines, block, block_if_some, from_one, simplices_block, asked_block, hilbert_heading, rays_heading, hilbert_blocks, element_blocks, ray_blocks, description_blocks, cone_blocks, cover_blocks, text_of};

use crate::asked_lines::{put_asked_lines, put_number};
use crate::columns::put_rows;
use crate::{AskedList, Outcome};
use itoa::Buffer;
use nz_vec::{Bytes, NoMemory, PlaceLists, Places, Row, Rows};
use std::alloc::Global;

fn put_count(out: &mut Bytes, count: usize) -> Result<(), NoMemory>
    ensures { OnOk result (out.new ≡ out.old ++ decimal count) }
{
    let mut buffer = Buffer::new();
    out.push_all(buffer.format(count).as_bytes())
}

fn level_word_of(level: bool) -> &'static [u8]
    ensures { result.now ≡ level_word level }
{
    if level {
        b"inhomogeneous".as_slice()
    } else {
        b"homogeneous".as_slice()
    }
}

pub fn hilbert_heading_of(level: bool) -> &'static [u8]
    ensures { result.now ≡ hilbert_heading level }
{
    if level {
        b" Hilbert basis elements of recession monoid:".as_slice()
    } else {
        b" Hilbert basis elements:".as_slice()
    }
}

pub fn rays_heading_of(level: bool) -> &'static [u8]
    ensures { result.now ≡ rays_heading level }
{
    if level {
        b" extreme rays of recession cone:".as_slice()
    } else {
        b" extreme rays:".as_slice()
    }
}

/// Puts the first two lines of a text: the entries of a vector of the file, and whether there is a level.
pub fn put_space(out: &mut Bytes, amb: u32, level: bool) -> Result<(), NoMemory>
    ensures { OnOk result (out.new ≡ out.old ++ space_lines amb level) }
{
    out.push_all(b"amb_space ".as_slice())?;
    put_count(out, amb as usize)?;
    out.push(b'\n')?;
    out.push_all(level_word_of(level))?;
    out.push(b'\n')
}

// The third line, where a grading is given.
fn put_denominator(out: &mut Bytes, denominator: Option<i128>) -> Result<(), NoMemory>
    ensures { OnOk result (out.new ≡ out.old ++ denominator_line denominator) }
{
    match denominator {
        Some(denominator) => {
            out.push_all(b"grading denominator ".as_slice())?;
            put_number(out, denominator)?;
            out.push(b'\n')
        }
        None => Ok(()),
    }
}

// The lines above the blocks.
fn put_head(
    out: &mut Bytes,
    amb: u32,
    level: bool,
    denominator: Option<i128>,
) -> Result<(), NoMemory>
    ensures { OnOk result (out.new ≡ out.old ++ head amb level denominator) }
{
    put_space(out, amb, level)?;
    put_denominator(out, denominator)
}

fn put_heading(out: &mut Bytes, count: usize, heading: &[u8]) -> Result<(), NoMemory>
    ensures { OnOk result (out.new ≡ out.old ++ heading_lines count heading.now) }
{
    out.push(b'\n')?;
    put_count(out, count)?;
    out.push_all(heading)?;
    out.push(b'\n')
}

/// Puts a block: an empty line, the number of rows before the heading, and the rows, right-aligned by columns.
pub fn put_block(
    alloc: Global,
    out: &mut Bytes,
    heading: &[u8],
    rows: &Rows<i128>,
) -> Result<(), NoMemory>
    ensures { OnOk result (out.new ≡ out.old ++ block heading.now rows.now) }
{
    put_heading(out, rows.len(), heading)?;
    put_rows(alloc, out, rows)
}

fn put_block_if_some(
    alloc: Global,
    out: &mut Bytes,
    heading: &[u8],
    rows: &Option<Rows<i128>>,
) -> Result<(), NoMemory>
    ensures { OnOk result (out.new ≡ out.old ++ block_if_some heading.now rows.now) }
{
    match rows {
        Some(rows) => put_block(alloc, out, heading, rows),
        None => Ok(()),
    }
}

// The places counted from 1.
fn from_one_of(alloc: Global, places: &Places) -> Result<Row<i128>, NoMemory>
    ensures { IfOk result (λ r. r ≡ from_one places.now) }
{
    let mut entries = Vec::new(alloc);
    for index in 0..places.len() {
        if entries.push(places.at(index) as i128 + 1).is_err() {
            return Err(NoMemory);
        }
    }
    Ok(Row::from_vec(entries))
}

fn simplex_rows(alloc: Global, simplices: &PlaceLists) -> Result<Rows<i128>, NoMemory>
    ensures { IfOk result (λ rows. rows ≡ map from_one simplices.now) }
{
    let mut rows = Rows::new(alloc);
    for index in 0..simplices.len() {
        rows.push(from_one_of(alloc, simplices.at(index))?)?;
    }
    Ok(rows)
}

fn put_simplices(
    alloc: Global,
    out: &mut Bytes,
    simplices: &Option<PlaceLists>,
) -> Result<(), NoMemory>
    ensures { OnOk result (out.new ≡ out.old ++ simplices_block simplices.now) }
{
    match simplices {
        Some(simplices) => {
            let rows = simplex_rows(alloc, simplices)?;
            put_block(alloc, out, b" simplices:".as_slice(), &rows)
        }
        None => Ok(()),
    }
}

fn put_asked(
    alloc: Global,
    out: &mut Bytes,
    level: bool,
    asked: &Option<AskedList>,
) -> Result<(), NoMemory>
    requires { IfSome asked.now (Each (λ a. HasText level a.0 a.1)) }
    ensures { OnOk result (out.new ≡ out.old ++ asked_block level asked.now) }
{
    match asked {
        Some(asked) => {
            put_heading(out, asked.len(), b" asked vectors:".as_slice())?;
            put_asked_lines(alloc, out, level, asked)
        }
        None => Ok(()),
    }
}

// The Hilbert basis, and its elements of degree 1.
fn put_hilbert_blocks(alloc: Global, out: &mut Bytes, outcome: &Outcome) -> Result<(), NoMemory>
    ensures { OnOk result (out.new ≡ out.old ++ hilbert_blocks outcome.now) }
{
    put_block_if_some(
        alloc,
        out,
        hilbert_heading_of(outcome.level),
        &outcome.hilbert,
    )?;
    put_block_if_some(
        alloc,
        out,
        b" degree 1 elements:".as_slice(),
        &outcome.degree_one,
    )
}

fn put_element_blocks(alloc: Global, out: &mut Bytes, outcome: &Outcome) -> Result<(), NoMemory>
    ensures { OnOk result (out.new ≡ out.old ++ element_blocks outcome.now) }
{
    put_block_if_some(
        alloc,
        out,
        b" module generators:".as_slice(),
        &outcome.modules,
    )?;
    put_hilbert_blocks(alloc, out, outcome)
}

// The extreme generators by their levels.
fn put_ray_blocks(alloc: Global, out: &mut Bytes, outcome: &Outcome) -> Result<(), NoMemory>
    ensures { OnOk result (out.new ≡ out.old ++ ray_blocks outcome.now) }
{
    put_block_if_some(
        alloc,
        out,
        b" vertices of polyhedron:".as_slice(),
        &outcome.vertices,
    )?;
    put_block_if_some(alloc, out, rays_heading_of(outcome.level), &outcome.rays)
}

fn put_equations(alloc: Global, out: &mut Bytes, rows: &Option<Rows<i128>>) -> Result<(), NoMemory>
    ensures { OnOk result (out.new ≡ out.old ++ block_if_some (codes " equations:") rows.now) }
{
    put_block_if_some(alloc, out, b" equations:".as_slice(), rows)
}

// The support description.
fn put_description_blocks(alloc: Global, out: &mut Bytes, outcome: &Outcome) -> Result<(), NoMemory>
    ensures { OnOk result (out.new ≡ out.old ++ description_blocks outcome.now) }
{
    put_block_if_some(
        alloc,
        out,
        b" support hyperplanes:".as_slice(),
        &outcome.support,
    )?;
    put_equations(alloc, out, &outcome.equations)
}

fn put_cone_blocks(alloc: Global, out: &mut Bytes, outcome: &Outcome) -> Result<(), NoMemory>
    ensures { OnOk result (out.new ≡ out.old ++ cone_blocks outcome.now) }
{
    put_ray_blocks(alloc, out, outcome)?;
    put_description_blocks(alloc, out, outcome)
}

fn put_cover_blocks(alloc: Global, out: &mut Bytes, outcome: &Outcome) -> Result<(), NoMemory>
    ensures { OnOk result (out.new ≡ out.old ++ cover_blocks outcome.now) }
{
    put_block_if_some(
        alloc,
        out,
        b" extreme generators:".as_slice(),
        &outcome.generators,
    )?;
    put_simplices(alloc, out, &outcome.simplices)
}

/// The text that a run stores for this outcome.
pub fn blocks(alloc: Global, outcome: &Outcome) -> Result<Bytes, NoMemory>
    ensures { IfOk result (λ text. text ≡ text_of outcome.now) }
{
    let mut out = Bytes::new(alloc);
    put_head(&mut out, outcome.amb, outcome.level, outcome.denominator)?;
    put_element_blocks(alloc, &mut out, outcome)?;
    put_cone_blocks(alloc, &mut out, outcome)?;
    put_cover_blocks(alloc, &mut out, outcome)?;
    put_asked(alloc, &mut out, outcome.level, &outcome.asked)?;
    Ok(out)
}
