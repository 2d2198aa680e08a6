//! The levels of a list, at both widths.
ghost use Rattle.std.specs.Prelude.{◌≡◌, IfOk, length};
ghost use Rattle.std.specs.List.{AllByRecursion as Each};
ghost use Rattle.nz_degree.specs.Levels.{HasEntry};

use nz_degree::split;
use nz_vec::{Row, Rows, Scalar};
use std::alloc::Global;
use std::test::Fail;

fn row<T: Scalar>(alloc: Global, entries: [i64; 2]) -> Result<Row<T>, Fail>
    ensures { IfOk result (λ r. length r ≡ 2) }
{
    let [first, second] = entries;
    let mut values = match Vec::with_capacity(alloc, 2) {
        Ok(values) => values,
        Err(_) => return Err(Fail::from("no memory")),
    };
    values.push_reserved(T::of_i64(first));
    values.push_reserved(T::of_i64(second));
    Ok(Row::from_vec(values))
}

fn with<T: Scalar>(alloc: Global, mut rows: Rows<T>, entries: [i64; 2]) -> Result<Rows<T>, Fail>
    requires { Each HasEntry rows }
    ensures { IfOk result (Each HasEntry) }
{
    match row(alloc, entries) {
        Ok(row) => match rows.push(row) {
            Ok(()) => Ok(rows),
            Err(_) => Err(Fail::from("no memory")),
        },
        Err(fail) => Err(fail),
    }
}

fn rows_of<T: Scalar>(alloc: Global, entries: [[i64; 2]; 4]) -> Result<Rows<T>, Fail>
    ensures { IfOk result (Each HasEntry) }
{
    let mut rows = Rows::new(alloc);
    for entry in entries {
        rows = match with(alloc, rows, entry) {
            Ok(rows) => rows,
            Err(fail) => return Err(fail),
        };
    }
    Ok(rows)
}

fn reads<T: Scalar>(row: &Row<T>, entries: [i64; 2]) -> bool {
    let [first, second] = entries;
    row.len() == 2
        && row.at(0).to_i128() == i128::from(first)
        && row.at(1).to_i128() == i128::from(second)
}

fn lists<T: Scalar>(rows: &Rows<T>, wanted: &[[i64; 2]]) -> bool {
    if rows.len() != wanted.len() {
        return false;
    }
    for place in 0..wanted.len() {
        if place < rows.len() && !reads(rows.at(place), wanted[place]) {
            return false;
        }
    }
    true
}

fn splits<T: Scalar>(alloc: Global) -> Result<bool, Fail> {
    let list = match rows_of::<T>(alloc, [[1, 0], [1, 1], [1, 2], [2, 1]]) {
        Ok(list) => list,
        Err(fail) => return Err(fail),
    };
    match split(alloc, &list) {
        Ok(levels) => Ok(lists(&levels.zero, &[[1, 0]]) && lists(&levels.one, &[[1, 1], [2, 1]])),
        Err(_) => Ok(false),
    }
}

#[test]
fn by_level(rt: HostRuntime) -> Result<(), Fail> {
    assert!(rt; splits::<i64>(rt.alloc())?);
    assert!(rt; splits::<i128>(rt.alloc())?);
    Ok(())
}
