//! The lines of asked vectors.
ghost use Rattle.std.specs.Prelude.{◌≡◌, ℕ, ◌+◌, ℤ, ◌++◌, ◌∷◌, [], length, map, codes, decimal, IfOk, OnOk, FitsSigned, pos};
ghost use Rattle.std.specs.Int.{w128};
ghost use Rattle.std.specs.List.{flat_map, AllByRecursion as Each};
ghost use Rattle.std.specs.Fmt.{signed_decimal};
ghost use Rattle.nz_vec.specs.Conditions.{condition_of};
ghost use Rattle.nz_vec.specs.Sums.{SumsFit};
ghost use Rattle.nz_spec.specs.Vectors.{dot};
ghost use Rattle.nz_spec.specs.Constraints.{form_of};
ghost use Rattle.nz_blocks.specs.Outcomes.{at_level, HasValueAt, HasText};
ghost use Rattle.nz_blocks.specs.Columns.{entries, gap};
ghost use Rattle.nz_blocks.specs.AskedLines.{count_word, count_words, module_word, demand, outside_text, reply_text, asked_line};

use crate::AskedList;
use itoa::Buffer;
use nz_member::Reply;
use nz_vec::{Bytes, Constraint, NoMemory, Row};
use std::alloc::Global;

pub fn put_number(out: &mut Bytes, number: i128) -> Result<(), NoMemory>
    ensures { OnOk result (out.new ≡ out.old ++ signed_decimal number) }
{
    let mut buffer = Buffer::new();
    out.push_all(buffer.format(number).as_bytes())
}

// A place, counted from 1.
fn put_place(out: &mut Bytes, place: usize) -> Result<(), NoMemory>
    ensures { OnOk result (out.new ≡ out.old ++ decimal (place + 1)) }
{
    let mut buffer = Buffer::new();
    out.push_all(buffer.format(place as u128 + 1).as_bytes())
}

// A space in front of each number but the first, and the number.
fn put_entry(out: &mut Bytes, place: usize, number: i128) -> Result<(), NoMemory>
    ensures { OnOk result (out.new ≡ out.old ++ (gap place ++ signed_decimal number)) }
{
    if place > 0 {
        out.push(b' ')?;
    }
    put_number(out, number)
}

fn put_entries(out: &mut Bytes, row: &Row<i128>) -> Result<(), NoMemory>
    ensures { OnOk result (out.new ≡ out.old ++ entries row.now) }
{
    for place in 0..row.len() {
        put_entry(out, place, row.at(place))?;
    }
    Ok(())
}

// How often the element at this place is taken, where it is.
fn put_count_word(out: &mut Bytes, place: usize, count: i128) -> Result<(), NoMemory>
    ensures { OnOk result (out.new ≡ out.old ++ count_word (place + 1) count) }
{
    if count > 0 {
        out.push(b' ')?;
        put_number(out, count)?;
        out.push_all(b"*h".as_slice())?;
        put_place(out, place)?;
    }
    Ok(())
}

fn put_count_words(out: &mut Bytes, counts: &Row<i128>) -> Result<(), NoMemory>
    ensures { OnOk result (out.new ≡ out.old ++ count_words 1 counts.now) }
{
    for place in 0..counts.len() {
        put_count_word(out, place, counts.at(place))?;
    }
    Ok(())
}

fn put_module_word(out: &mut Bytes, named: Option<usize>) -> Result<(), NoMemory>
    ensures { OnOk result (out.new ≡ out.old ++ module_word named) }
{
    match named {
        Some(place) => {
            out.push_all(b" m".as_slice())?;
            put_place(out, place)
        }
        None => Ok(()),
    }
}

fn put_demand(out: &mut Bytes, constraint: &Constraint<i128>) -> Result<(), NoMemory>
    ensures { OnOk result (out.new ≡ out.old ++ demand (condition_of (λ z. z) constraint.now)) }
{
    match constraint {
        Constraint::Zero(_) => out.push_all(b" = 0".as_slice()),
        Constraint::NotNegative(_) => out.push_all(b" >= 0".as_slice()),
        Constraint::Multiple(_, modulus) => {
            let modulus = *modulus;
            out.push_all(b" = 0 mod ".as_slice())?;
            put_number(out, modulus)
        }
    }
}

pub fn form_of(constraint: &Constraint<i128>) -> &Row<i128>
    ensures { result.now ≡ form_of (condition_of (λ z. z) constraint.now) }
{
    match constraint {
        Constraint::Zero(form) => form,
        Constraint::NotNegative(form) => form,
        Constraint::Multiple(form, _) => form,
    }
}

// The vector as a row: with level 1 where there is a level.
pub fn as_row(alloc: Global, level: bool, x: &Row<i128>) -> Result<Row<i128>, NoMemory>
    ensures { IfOk result (λ r. r ≡ at_level level x.now) }
{
    if level {
        with_level(alloc, x)
    } else {
        x.try_copy()
    }
}

fn with_level(alloc: Global, x: &Row<i128>) -> Result<Row<i128>, NoMemory>
    ensures { IfOk result (λ r. r ≡ x.now ++ pos 1 ∷ []) }
{
    let mut entries = Vec::new(alloc);
    for place in 0..x.len() {
        if entries.push(x.at(place)).is_err() {
            return Err(NoMemory);
        }
    }
    if entries.push(1).is_err() {
        return Err(NoMemory);
    }
    Ok(Row::from_vec(entries))
}

// A constraint that fails at the row x, and the value of its form there.
fn put_outside(
    out: &mut Bytes,
    x: &Row<i128>,
    constraint: &Constraint<i128>,
) -> Result<(), NoMemory>
    requires length { length (form_of (condition_of (λ z. z) constraint.now)) ≡ length x.now }
    requires value { SumsFit (FitsSigned w128) (pos 0) (form_of (condition_of (λ z. z) constraint.now)) x.now }
    ensures { OnOk result (out.new ≡ out.old ++ outside_text x.now (condition_of (λ z. z) constraint.now)) }
{
    let form = form_of(constraint);
    out.push_all(b" out ".as_slice())?;
    put_entries(out, form)?;
    put_demand(out, constraint)?;
    out.push_all(b" gives ".as_slice())?;
    match form.dot(x) {
        Some(value) => put_number(out, value),
        None => unreachable!(),
    }
}

// What is answered of the vector.
fn put_reply(
    alloc: Global,
    out: &mut Bytes,
    level: bool,
    x: &Row<i128>,
    reply: &Reply<i128>,
) -> Result<(), NoMemory>
    requires { HasText level x.now reply.now }
    ensures { OnOk result (out.new ≡ out.old ++ reply_text (at_level level x.now) reply.now) }
{
    match reply {
        Reply::Parts { module, counts } => {
            out.push_all(b" in".as_slice())?;
            put_count_words(out, counts)?;
            put_module_word(out, *module)
        }
        Reply::Outside(constraint) => {
            let row = as_row(alloc, level, x)?;
            put_outside(out, &row, constraint)
        }
    }
}

fn put_asked_line(
    alloc: Global,
    out: &mut Bytes,
    level: bool,
    asked: &(Row<i128>, Reply<i128>),
) -> Result<(), NoMemory>
    requires { HasText level asked.now.0 asked.now.1 }
    ensures { OnOk result (out.new ≡ out.old ++ asked_line level asked.now) }
{
    put_entries(out, &asked.0)?;
    out.push(b':')?;
    put_reply(alloc, out, level, &asked.0, &asked.1)?;
    out.push(b'\n')
}

/// The lines of all asked vectors.
pub fn put_asked_lines(
    alloc: Global,
    out: &mut Bytes,
    level: bool,
    asked: &AskedList,
) -> Result<(), NoMemory>
    requires { Each (λ a. HasText level a.0 a.1) asked.now }
    ensures { OnOk result (out.new ≡ out.old ++ flat_map (asked_line level) asked.now) }
{
    for place in 0..asked.len() {
        put_asked_line(alloc, out, level, asked.at(place))?;
    }
    Ok(())
}
