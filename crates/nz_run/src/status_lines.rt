//! The line of a status and the summary line of a made file, written to the console without memory.
ghost use Rattle.std.specs.Prelude.{◌≡◌, ◌≤◌, ◌++◌, IsFalse, codes, decimal};
ghost use Rattle.std.specs.Fmt.{signed_decimal};
ghost use Rattle.nz_watch.specs.Counts.{Rose};
ghost use Rattle.nz_edge.specs.Folders.{BothTold};
ghost use Rattle.nz_edge.specs.Answers.{PutAll};
ghost use Rattle.nz_blocks.specs.Lines.{line};
ghost use Rattle.nz_run.specs.Statuses.{fault_name, rule_name, place_line, after_spaces, entries_line, status_line};
ghost use Rattle.nz_run.specs.Runs.{IsSideOf};
ghost use Rattle.nz_run.specs.Summaries.{counted_line, known_line, known_lines};

use crate::Status;
use itoa::Buffer;
use nz_edge::{Sink, put_all};
use nz_input::Fault;
use nz_system::MeaningFault;
use nz_vec::Ints;

fn name_of(fault: Fault) -> &'static [u8]
    ensures { result.now ≡ fault_name fault }
{
    match fault {
        Fault::NoAmb => b"NoAmb".as_slice(),
        Fault::Word => b"Word".as_slice(),
        Fault::Number => b"Number".as_slice(),
        Fault::TooWide => b"TooWide".as_slice(),
        Fault::TooFew => b"TooFew".as_slice(),
        Fault::TooMany => b"TooMany".as_slice(),
        Fault::OpenComment => b"OpenComment".as_slice(),
        Fault::Byte => b"Byte".as_slice(),
    }
}

fn rule_name(fault: MeaningFault) -> &'static [u8]
    ensures { result.now ≡ rule_name fault }
{
    match fault {
        MeaningFault::RowLimit => b"RowLimit".as_slice(),
        MeaningFault::Modulus => b"Modulus".as_slice(),
        MeaningFault::Sign => b"Sign".as_slice(),
        MeaningFault::Denominator => b"Denominator".as_slice(),
        MeaningFault::Repeated => b"Repeated".as_slice(),
        MeaningFault::Mixed => b"Mixed".as_slice(),
        MeaningFault::Exponent => b"Exponent".as_slice(),
        MeaningFault::NoGrading => b"NoGrading".as_slice(),
        MeaningFault::NoLevel => b"NoLevel".as_slice(),
    }
}

// One piece, and where it was taken whole, the next.
fn put_two<S: Sink>(console: &mut S, first: &[u8], second: &[u8]) -> bool
    ensures written { BothTold (S.written console.old) (S.written console.new) (λ old new. PutAll old new (first.now ++ second.now) result) }
    ensures cause { IsFalse result → Rose (S.faults console.old) (S.faults console.new) }
    ensures later { S.faults console.old ≤ S.faults console.new }
{
    if put_all(console, first) {
        put_all(console, second)
    } else {
        false
    }
}

// A label and a number.
fn put_number<S: Sink>(console: &mut S, label: &[u8], number: u64) -> bool
    ensures written { BothTold (S.written console.old) (S.written console.new) (λ old new. PutAll old new (label.now ++ decimal number) result) }
    ensures cause { IsFalse result → Rose (S.faults console.old) (S.faults console.new) }
    ensures later { S.faults console.old ≤ S.faults console.new }
{
    let mut buffer = Buffer::new();
    put_two(console, label, buffer.format(number).as_bytes())
}

// A label, a text and an end of line.
fn put_text<S: Sink>(console: &mut S, label: &[u8], text: &[u8]) -> bool
    ensures written { BothTold (S.written console.old) (S.written console.new) (λ old new. PutAll old new (line (label.now ++ text.now)) result) }
    ensures cause { IsFalse result → Rose (S.faults console.old) (S.faults console.new) }
    ensures later { S.faults console.old ≤ S.faults console.new }
{
    if put_two(console, label, text) {
        put_all(console, b"\n")
    } else {
        false
    }
}

// An entry after a space.
fn put_entry<S: Sink>(console: &mut S, entry: i128) -> bool
    ensures written { BothTold (S.written console.old) (S.written console.new) (λ old new. PutAll old new (codes " " ++ signed_decimal entry) result) }
    ensures cause { IsFalse result → Rose (S.faults console.old) (S.faults console.new) }
    ensures later { S.faults console.old ≤ S.faults console.new }
{
    let mut buffer = Buffer::new();
    put_two(console, b" ", buffer.format(entry).as_bytes())
}

// Each entry after a space.
fn put_entries<S: Sink>(console: &mut S, entries: &Ints) -> bool
    ensures written { BothTold (S.written console.old) (S.written console.new) (λ old new. PutAll old new (after_spaces entries.now) result) }
    ensures cause { IsFalse result → Rose (S.faults console.old) (S.faults console.new) }
    ensures later { S.faults console.old ≤ S.faults console.new }
{
    for place in 0..entries.len() {
        if !put_entry(console, entries.at(place)) {
            return false;
        }
    }
    true
}

// A label, the entries of a vector and an end of line.
fn put_entries_line<S: Sink>(console: &mut S, label: &[u8], entries: &Ints) -> bool
    ensures written { BothTold (S.written console.old) (S.written console.new) (λ old new. PutAll old new (entries_line label.now entries.now) result) }
    ensures cause { IsFalse result → Rose (S.faults console.old) (S.faults console.new) }
    ensures later { S.faults console.old ≤ S.faults console.new }
{
    if !put_all(console, label) {
        return false;
    }
    if !put_entries(console, entries) {
        return false;
    }
    put_all(console, b"\n")
}

// A label, a number and an end of line.
fn put_number_line<S: Sink>(console: &mut S, label: &[u8], number: u64) -> bool
    ensures written { BothTold (S.written console.old) (S.written console.new) (λ old new. PutAll old new (line (label.now ++ decimal number)) result) }
    ensures cause { IsFalse result → Rose (S.faults console.old) (S.faults console.new) }
    ensures later { S.faults console.old ≤ S.faults console.new }
{
    if put_number(console, label, number) {
        put_all(console, b"\n")
    } else {
        false
    }
}

// A place, and what is wrong there.
fn put_place<S: Sink>(
    console: &mut S,
    first: &[u8],
    row: u64,
    second: &[u8],
    column: u64,
    fault: &[u8],
) -> bool
    ensures written { BothTold (S.written console.old) (S.written console.new) (λ old new. PutAll old new (place_line first.now row second.now column fault.now) result) }
    ensures cause { IsFalse result → Rose (S.faults console.old) (S.faults console.new) }
    ensures later { S.faults console.old ≤ S.faults console.new }
{
    if !put_number(console, first, row) {
        return false;
    }
    if !put_number(console, second, column) {
        return false;
    }
    put_text(console, b": ", fault)
}

// Writes the line of the status. False only where the console had a fault; some first bytes of the line were written then.
fn put_status<S: Sink>(console: &mut S, status: &Status) -> bool
    ensures written { BothTold (S.written console.old) (S.written console.new) (λ old new. PutAll old new (status_line status.now) result) }
    ensures cause { IsFalse result → Rose (S.faults console.old) (S.faults console.new) }
    ensures later { S.faults console.old ≤ S.faults console.new }
{
    match status {
        Status::Grammar {
            line,
            column,
            fault,
        } => put_place(
            console,
            b"line ",
            *line,
            b" column ",
            *column,
            name_of(*fault),
        ),
        Status::Meaning { item, row, fault } => put_place(
            console,
            b"item ",
            *item,
            b" row ",
            u64::from(*row),
            rule_name(*fault),
        ),
        Status::Line(vector) => put_entries_line(console, b"line:", vector),
        Status::Grade(vector) => put_entries_line(console, b"grade:", vector),
        Status::Stopped { stage } => put_number_line(console, b"stopped at stage ", *stage),
        Status::Done => put_all(console, b"done\n"),
        Status::Usage => put_all(console, b"usage: nmz [options] PROJECT\n"),
        Status::Absent => put_all(console, b"no input file\n"),
        Status::ReadFault => put_all(console, b"read fault\n"),
        Status::TooLong => put_all(console, b"input too long\n"),
        Status::Range => put_all(console, b"range\n"),
        Status::TooMany => put_all(console, b"too many\n"),
        Status::WriteFault => put_all(console, b"write fault\n"),
        Status::NoMemory => put_all(console, b"no memory\n"),
        Status::Converted => put_all(console, b"converted\n"),
        Status::UnitsDone => put_all(console, b"units done\n"),
        Status::Points => put_all(console, b"points\n"),
        Status::Unbounded(vector) => put_entries_line(console, b"unbounded:", vector),
    }
}

// The summary line of a made file with so many elements and this sum.
fn put_counts<S: Sink>(console: &mut S, side: u64, count: u64, sum: u64) -> bool
    ensures written { BothTold (S.written console.old) (S.written console.new) (λ old new. PutAll old new (counted_line side count (decimal sum)) result) }
    ensures cause { IsFalse result → Rose (S.faults console.old) (S.faults console.new) }
    ensures later { S.faults console.old ≤ S.faults console.new }
{
    if !put_number(console, b"made ", side) {
        return false;
    }
    if !put_number(console, b": ", count) {
        return false;
    }
    put_number_line(console, b" elements, sum ", sum)
}

// The summary line of the file that was made for this side: how many elements its Hilbert basis has, and the sum of their entries.
fn put_summary<S: Sink>(console: &mut S, side: u32) -> bool
    requires { side ≤ 150 }
    ensures written { BothTold (S.written console.old) (S.written console.new) (λ old new. PutAll old new (known_line side) result) }
    ensures cause { IsFalse result → Rose (S.faults console.old) (S.faults console.new) }
    ensures later { S.faults console.old ≤ S.faults console.new }
{
    let points = side + 1;
    let count = points * points;
    let sum = points * count;
    put_counts(console, side as u64, count as u64, sum as u64)
}

/// Writes the line of the status, and after Done the summary line, where a file was made for this side. False only where the console
/// had a fault; some first bytes of the lines were written then.
pub fn put_lines<S: Sink>(console: &mut S, status: &Status, side: Option<u32>) -> bool
    requires { IsSideOf side }
    ensures written { BothTold (S.written console.old) (S.written console.new) (λ old new. PutAll old new (known_lines side status.now) result) }
    ensures cause { IsFalse result → Rose (S.faults console.old) (S.faults console.new) }
    ensures later { S.faults console.old ≤ S.faults console.new }
{
    let side = match side {
        Some(side) => side,
        None => return put_status(console, status),
    };
    match status {
        Status::Done => {
            if put_status(console, status) {
                put_summary(console, side)
            } else {
                false
            }
        }
        _ => put_status(console, status),
    }
}
