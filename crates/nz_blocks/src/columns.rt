//! Rows of numbers in columns.
ghost use Rattle.std.specs.Prelude.{◌≡◌, ℕ, ◌<◌, ◌≤◌, ◌++◌, ◌∷◌, [], length, max, map, get_or, IfOk, OnOk, slice_index};
ghost use Rattle.std.specs.List.{flat_map};
ghost use Rattle.std.specs.Fmt.{signed_decimal};
ghost use Rattle.nz_blocks.specs.Columns.{column_width, right_aligned, gap, cells, spaced, width_at_only};
ghost use Rattle.nz_blocks.specs.Lines.{line};
ghost use Rattle.nz_blocks.specs.Output.{row_text};

use crate::digits::text_length;
use itoa::Buffer;
use nz_vec::{Bytes, NoMemory, Row, Rows};
use std::alloc::Global;

// Widths of 0 behind these, up to this number of columns.
fn grow(widths: &mut Vec<usize>, columns: usize) -> Result<(), NoMemory>
    ensures long { OnOk result (columns ≤ length widths.new.items) }
    ensures same { OnOk result ((j : ℕ) → slice_index widths.new.items j ≡ slice_index widths.old.items j) }
{
    for _column in widths.len()..columns {
        if widths.push(0).is_err() {
            return Err(NoMemory);
        }
    }
    Ok(())
}

// Widens a column where it is narrower.
fn raise(widths: &mut [usize], column: usize, width: usize)
    requires { column < length widths.old }
    ensures { (j : ℕ) → slice_index widths.new j ≡ max (slice_index widths.old j) (width_at_only column width j) }
{
    widths[column] = widths[column].max(width);
}

// Widens the columns that are narrower than an entry of the row.
fn raise_to_row(widths: &mut [usize], row: &Row<i128>)
    requires { length row.now ≤ length widths.old }
    ensures { (j : ℕ) → slice_index widths.new j ≡ max (slice_index widths.old j) (length (get_or (map signed_decimal row.now) j [])) }
{
    for column in 0..row.len() {
        raise(widths, column, text_length(row.at(column)));
    }
}

// The length of the longest entry of each column.
fn widths_of(alloc: Global, rows: &Rows<i128>) -> Result<Vec<usize>, NoMemory>
    ensures { IfOk result (λ v. (j : ℕ) → slice_index v.items j ≡ column_width rows.now j) }
{
    let mut widths = Vec::new(alloc);
    for place in 0..rows.len() {
        let row = rows.at(place);
        grow(&mut widths, row.len())?;
        raise_to_row(widths.as_mut_slice(), row);
    }
    Ok(widths)
}

fn width_at(widths: &[usize], column: usize) -> usize
    ensures { result ≡ slice_index widths.now column }
{
    if column < widths.len() {
        widths[column]
    } else {
        0
    }
}

// The number, right-aligned in its column.
fn put_aligned(out: &mut Bytes, width: usize, number: i128) -> Result<(), NoMemory>
    ensures { OnOk result (out.new ≡ out.old ++ right_aligned width (signed_decimal number)) }
{
    let mut buffer = Buffer::new();
    let text = buffer.format(number);
    for _space in 0..width.saturating_sub(text.len()) {
        out.push(b' ')?;
    }
    out.push_all(text.as_bytes())
}

// A space in front of each number but the first, and the number.
fn put_cell(out: &mut Bytes, place: usize, width: usize, number: i128) -> Result<(), NoMemory>
    ensures { OnOk result (out.new ≡ out.old ++ (gap place ++ right_aligned width (signed_decimal number))) }
{
    if place > 0 {
        out.push(b' ')?;
    }
    put_aligned(out, width, number)
}

// The row in columns of these widths, and an end of line.
fn put_row(out: &mut Bytes, widths: &[usize], row: &Row<i128>) -> Result<(), NoMemory>
    ensures { OnOk result (out.new ≡ out.old ++ line (spaced (cells (slice_index widths.now) 0 row.now))) }
{
    for place in 0..row.len() {
        put_cell(out, place, width_at(widths, place), row.at(place))?;
    }
    out.push(b'\n')
}

/// All rows, each entry right-aligned in its column.
pub fn put_rows(alloc: Global, out: &mut Bytes, rows: &Rows<i128>) -> Result<(), NoMemory>
    ensures { OnOk result (out.new ≡ out.old ++ flat_map (row_text rows.now) rows.now) }
{
    let widths = widths_of(alloc, rows)?;
    for place in 0..rows.len() {
        put_row(out, &widths, rows.at(place))?;
    }
    Ok(())
}
