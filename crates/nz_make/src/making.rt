//! Making a file.
ghost use Rattle.std.specs.Prelude.{◌≡◌, ◌≤◌, IfOk};
ghost use Rattle.nz_make.specs.Squares.{point, corners, made_file};

use nz_input::{File, Goals, Item, Items, Kind};
use nz_vec::{NoMemory, Row, Rows};
use std::alloc::Global;

// The vector (x, y, 1).
fn point(alloc: Global, x: u32, y: u32) -> Result<Row<i64>, NoMemory>
    ensures { IfOk result (λ row. row ≡ point x y) }
{
    let entries = [i64::from(x), i64::from(y), 1];
    Row::of(alloc, &entries)
}

fn corners(alloc: Global, side: u32) -> Result<Rows<i64>, NoMemory>
    ensures { IfOk result (λ rows. rows ≡ corners side) }
{
    let mut rows = Rows::new(alloc);
    rows.push(point(alloc, 0, 0)?)?;
    rows.push(point(alloc, side, 0)?)?;
    rows.push(point(alloc, 0, side)?)?;
    rows.push(point(alloc, side, side)?)?;
    Ok(rows)
}

/// The file of the cone over the square with this side: its generators are the four corners, at level 1.
pub fn made(alloc: Global, side: u32) -> Result<File, NoMemory>
    requires low { 1 ≤ side }
    requires high { side ≤ 150 }
    ensures { IfOk result (λ file. file ≡ made_file side) }
{
    let rows = corners(alloc, side)?;
    let mut items = Items::new(alloc);
    items.push(Item {
        kind: Kind::Cone,
        rows,
    })?;
    Ok(File {
        amb: 3,
        items,
        goals: Goals::new(alloc),
    })
}
