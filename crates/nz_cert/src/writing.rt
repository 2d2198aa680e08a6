//! A text written.
ghost use Rattle.std.specs.Prelude.{◌≡◌, ℕ, suc, ◌+◌, ◌^◌, ◌<◌, ◌≤◌, ◌++◌, ◌∷◌, [], length, map, codes, decimal, IfOk, OnOk};
ghost use Rattle.std.specs.Fmt.{signed_decimal};
ghost use Rattle.nz_further.specs.CertificateTexts.{spaced, vector_line, vector_lines, list_lines, stage_lines, canonical};
ghost use Rattle.nz_cert.specs.Written.{gap, head_line, order_line, sides_lines, list_blocks};

use crate::Certificate;
use itoa::Buffer;
use nz_vec::{Bytes, NoMemory, Places, Row, RowLists, Rows};
use std::alloc::Global;

// A space, and a number.
fn put_count(out: &mut Bytes, count: u64) -> Result<(), NoMemory>
    ensures { OnOk result (out.new ≡ out.old ++ spaced (decimal count ∷ [])) }
{
    out.push(b' ')?;
    let mut buffer = Buffer::new();
    out.push_all(buffer.format(count).as_bytes())
}

fn put_number(out: &mut Bytes, number: i128) -> Result<(), NoMemory>
    ensures { OnOk result (out.new ≡ out.old ++ signed_decimal number) }
{
    let mut buffer = Buffer::new();
    out.push_all(buffer.format(number).as_bytes())
}

// A space in front of each number but the first, and the number.
fn put_entry(out: &mut Bytes, column: usize, number: i128) -> Result<(), NoMemory>
    ensures { OnOk result (out.new ≡ out.old ++ (gap column ++ signed_decimal number)) }
{
    if column > 0 {
        out.push(b' ')?;
    }
    put_number(out, number)
}

// A vector on its line.
fn put_vector(out: &mut Bytes, vector: &Row<i128>) -> Result<(), NoMemory>
    ensures { OnOk result (out.new ≡ out.old ++ vector_line vector.now) }
{
    for column in 0..vector.len() {
        put_entry(out, column, vector.at(column))?;
    }
    out.push(b'\n')
}

// Each vector on a line.
fn put_vectors(out: &mut Bytes, vectors: &Rows<i128>) -> Result<(), NoMemory>
    ensures { OnOk result (out.new ≡ out.old ++ vector_lines vectors.now) }
{
    for place in 0..vectors.len() {
        put_vector(out, vectors.at(place))?;
    }
    Ok(())
}

// The number of vectors, the end of the line, and the vectors.
fn put_counted(out: &mut Bytes, vectors: &Rows<i128>) -> Result<(), NoMemory>
    ensures { OnOk result (out.new ≡ out.old ++ (spaced (decimal (length vectors.now) ∷ []) ++ (10 ∷ vector_lines vectors.now))) }
{
    put_count(out, vectors.len() as u64)?;
    out.push(b'\n')?;
    put_vectors(out, vectors)
}

fn put_list(out: &mut Bytes, name: &[u8], vectors: &Rows<i128>) -> Result<(), NoMemory>
    ensures { OnOk result (out.new ≡ out.old ++ list_lines name.now vectors.now) }
{
    out.push_all(name)?;
    put_counted(out, vectors)
}

// The lists of the row of this number.
fn put_sides(
    out: &mut Bytes,
    number: u64,
    plus: &Rows<i128>,
    minus: &Rows<i128>,
) -> Result<(), NoMemory>
    ensures { OnOk result (out.new ≡ out.old ++ sides_lines number plus.now minus.now) }
{
    out.push_all(b"stage".as_slice())?;
    put_count(out, number)?;
    put_counted(out, plus)?;
    put_list(out, b"reversed".as_slice(), minus)
}

// The lists of all rows after the first `rank` ones.
fn put_stages(
    out: &mut Bytes,
    rank: u32,
    plus: &RowLists<i128>,
    minus: &RowLists<i128>,
) -> Result<(), NoMemory>
    requires same { length plus.now ≡ length minus.now }
    requires few { rank + length plus.now < 2 ^ 64 }
    ensures { OnOk result (out.new ≡ out.old ++ stage_lines (suc rank) plus.now minus.now) }
{
    for place in 0..plus.len() {
        let number = rank as u64 + place as u64 + 1;
        put_sides(out, number, plus.at(place), minus.at(place))?;
    }
    Ok(())
}

// The first line.
fn put_head(out: &mut Bytes, width: u32, rank: u32, rows: u64) -> Result<(), NoMemory>
    ensures { OnOk result (out.new ≡ out.old ++ head_line width rank rows) }
{
    out.push_all(b"nmzcert".as_slice())?;
    put_count(out, width as u64)?;
    put_count(out, rank as u64)?;
    put_count(out, rows)?;
    out.push(b'\n')
}

// The second line.
fn put_order(out: &mut Bytes, order: &Places) -> Result<(), NoMemory>
    ensures { OnOk result (out.new ≡ out.old ++ order_line order.now) }
{
    out.push_all(b"order".as_slice())?;
    for index in 0..order.len() {
        put_count(out, order.at(index) as u64)?;
    }
    out.push(b'\n')
}

// The lists of the first rows.
fn put_lists(
    out: &mut Bytes,
    rays: &Rows<i128>,
    points: &Rows<i128>,
    first: &Rows<i128>,
) -> Result<(), NoMemory>
    ensures { OnOk result (out.new ≡ out.old ++ list_blocks rays.now points.now first.now) }
{
    out.push_all(b"rays\n".as_slice())?;
    put_vectors(out, rays)?;
    put_list(out, b"points".as_slice(), points)?;
    put_list(out, b"first".as_slice(), first)
}

/// The text of a certificate with single spaces: the sizes on the first line, the order on the second,
/// each other word with its numbers on a line, and each vector on a line.
pub fn write_cert(alloc: Global, cert: &Certificate) -> Result<Bytes, NoMemory>
    ensures { IfOk result (λ text. text ≡ canonical cert.now) }
{
    let mut out = Bytes::new(alloc);
    put_head(&mut out, cert.width, cert.rank, cert.order.len() as u64)?;
    put_order(&mut out, &cert.order)?;
    put_lists(&mut out, &cert.rays, &cert.points, &cert.first)?;
    put_stages(&mut out, cert.rank, &cert.plus, &cert.minus)?;
    Ok(out)
}
