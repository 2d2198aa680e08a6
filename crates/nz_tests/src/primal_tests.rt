//! Primal runs, at both widths.
ghost use Rattle.std.specs.Prelude.{◌≡◌, IfOk, length};
ghost use Rattle.std.specs.List.{AllByRecursion as Each};
ghost use Rattle.nz_spec.specs.Vectors.{HasWidth};
ghost use Rattle.nz_pointed.specs.Pointed.{IsSimplexOf};

use nz_pointed::{Pointed, Simplex, start};
use nz_primal::{PrimalLists, primal};
use nz_vec::{Row, Rows, Scalar, Work};
use nz_watch::{MemWatch, Watch};
use std::alloc::Global;
use std::process::Abort;
use std::test::Fail;

// Rows of three entries, the limit and how many stages are told before, and what is wanted: the
// irreducible elements, the extreme generators by the values of the rows, and the pairs told.
#[derive(Clone, Copy)]
struct Case {
    rows: &'static [[i64; 3]],
    limit: u32,
    told_before: u64,
    list: &'static [[i64; 3]],
    extreme: &'static [[i64; 3]],
    told: &'static [(u64, u64)],
}

// A plane cone times a half-line; the same in the plane where the third row is 0; 0 alone; a square
// cone with its first stage told before.
const CASES: [Case; 4] = [
    Case {
        rows: &[[-1, 2, 0], [3, -1, 0], [0, 0, 1]],
        limit: 5,
        told_before: 0,
        list: &[[0, 0, 1], [1, 1, 0], [1, 2, 0], [1, 3, 0], [2, 1, 0]],
        extreme: &[[0, 0, 1], [2, 1, 0], [1, 3, 0]],
        told: &[(3, 3)],
    },
    Case {
        rows: &[[-1, 2, 0], [3, -1, 0], [0, 0, 1], [0, 0, -1]],
        limit: 5,
        told_before: 0,
        list: &[[1, 1, 0], [1, 2, 0], [1, 3, 0], [2, 1, 0]],
        extreme: &[[2, 1, 0], [1, 3, 0]],
        told: &[(2, 2)],
    },
    Case {
        rows: &[[1, 1, 1], [-1, 0, 0], [0, -1, 0], [0, 0, -1]],
        limit: 5,
        told_before: 0,
        list: &[],
        extreme: &[],
        told: &[],
    },
    Case {
        rows: &[[1, 0, 0], [0, 1, 0], [-1, 0, 1], [0, -1, 1]],
        limit: 5,
        told_before: 1,
        list: &[[0, 0, 1], [0, 1, 1], [1, 0, 1], [1, 1, 1]],
        extreme: &[[0, 0, 1], [0, 1, 1], [1, 0, 1], [1, 1, 1]],
        told: &[(4, 4)],
    },
];

fn row<T: Scalar>(alloc: Global, entries: [i64; 3]) -> Result<Row<T>, Fail>
    ensures { IfOk result (λ r. length r ≡ 3) }
{
    let [first, second, third] = entries;
    let mut values = match Vec::with_capacity(alloc, 3) {
        Ok(values) => values,
        Err(_) => return Err(Fail::from("no memory")),
    };
    values.push_reserved(T::of_i64(first));
    values.push_reserved(T::of_i64(second));
    values.push_reserved(T::of_i64(third));
    Ok(Row::from_vec(values))
}

fn with<T: Scalar>(alloc: Global, mut rows: Rows<T>, entries: [i64; 3]) -> Result<Rows<T>, Fail>
    requires { Each (HasWidth 3) rows }
    ensures { IfOk result (Each (HasWidth 3)) }
{
    match row(alloc, entries) {
        Ok(row) => match rows.push(row) {
            Ok(()) => Ok(rows),
            Err(_) => Err(Fail::from("no memory")),
        },
        Err(fail) => Err(fail),
    }
}

fn rows_of<T: Scalar>(alloc: Global, entries: &[[i64; 3]]) -> Result<Rows<T>, Fail>
    ensures { IfOk result (Each (HasWidth 3)) }
{
    let mut rows = Rows::new(alloc);
    for i in 0..entries.len() {
        rows = match with(alloc, rows, entries[i]) {
            Ok(rows) => rows,
            Err(fail) => return Err(fail),
        };
    }
    Ok(rows)
}

fn is_row<T: Scalar>(row: &Row<T>, wanted: [i64; 3]) -> bool {
    let [first, second, third] = wanted;
    row.len() == 3
        && row.at(0) == T::of_i64(first)
        && row.at(1) == T::of_i64(second)
        && row.at(2) == T::of_i64(third)
}

fn lists<T: Scalar>(rows: &Rows<T>, wanted: &[[i64; 3]]) -> bool {
    if rows.len() != wanted.len() {
        return false;
    }
    for i in 0..wanted.len() {
        if i < rows.len() && !is_row(rows.at(i), wanted[i]) {
            return false;
        }
    }
    true
}

fn is_told(watch: &Box<dyn Watch>, wanted: &[(u64, u64)]) -> bool {
    for i in 0..wanted.len() {
        if watch.pair(i) != Some(wanted[i]) {
            return false;
        }
    }
    watch.pair(wanted.len()) == None
}

fn is_wanted<T: Scalar>(answer: &Result<PrimalLists<T>, Work>, case: Case) -> bool {
    match answer {
        Ok(found) => lists(&found.list, case.list) && lists(&found.extreme, case.extreme),
        Err(_) => false,
    }
}

fn agrees<T: Scalar>(
    alloc: Global,
    rows: &Rows<T>,
    simplex: &Simplex<T>,
    case: Case,
) -> Result<bool, Fail>
    requires widths { Each (HasWidth (length simplex.now.places)) rows.now }
    requires simplex { IsSimplexOf (length simplex.now.places) rows.now simplex.now.places simplex.now.rays }
{
    let watch = match MemWatch::new(alloc, 5, None) {
        Ok(watch) => watch,
        Err(_) => return Err(Fail::from("no memory")),
    };
    let mut watch: Box<dyn Watch> = match Box::new(alloc, watch) {
        Ok(watch) => watch,
        Err(_) => return Err(Fail::from("no memory")),
    };
    let answer = primal(
        alloc,
        rows,
        simplex,
        rows,
        case.limit,
        case.told_before,
        &mut watch,
    );
    Ok(is_wanted(&answer, case) && is_told(&watch, case.told))
}

fn is_found<T: Scalar>(alloc: Global, case: Case) -> Result<bool, Fail> {
    let rows = match rows_of::<T>(alloc, case.rows) {
        Ok(rows) => rows,
        Err(fail) => return Err(fail),
    };
    match start(alloc, &rows, 3) {
        Ok(Pointed::Simplex(simplex)) => agrees(alloc, &rows, &simplex, case),
        Ok(Pointed::Line(_)) => Ok(false),
        Err(_) => Ok(false),
    }
}

#[test]
fn primal_runs(rt: HostRuntime) -> Result<(), Fail> {
    for case in CASES {
        assert!(rt; is_found::<i64>(rt.alloc(), case)?);
        assert!(rt; is_found::<i128>(rt.alloc(), case)?);
    }
    Ok(())
}
