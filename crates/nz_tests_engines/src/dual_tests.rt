//! Whole runs, at both widths.
ghost use Rattle.std.specs.Prelude.{◌≡◌, IfOk, length};
ghost use Rattle.std.specs.List.{AllByRecursion as Each};
ghost use Rattle.nz_spec.specs.Vectors.{HasWidth};
ghost use Rattle.nz_pointed.specs.Pointed.{IsSimplexOf};

use nz_dual::dual;
use nz_pointed::{Pointed, Simplex, start};
use nz_vec::{Row, Rows, Scalar, Work};
use nz_watch::{MemWatch, Watch};
use std::alloc::Global;
use std::process::Abort;
use std::test::Fail;

// Rows of which the first `width` entries count, the limit, how many stages are told before, at which
// call the watch says stop (0 for never), and what is wanted: the list or a refusal, and the pairs told.
#[derive(Clone, Copy)]
struct Case {
    width: usize,
    rows: &'static [[i64; 3]],
    limit: u32,
    told_before: u64,
    stop_at: u64,
    list: &'static [[i64; 3]],
    refusal: Option<Work>,
    told: &'static [(u64, u64)],
}

const SQUARES: [[i64; 3]; 9] = [
    [1, 1, 0],
    [1, -1, -1],
    [1, 0, 1],
    [1, -1, 1],
    [1, 0, 0],
    [1, 1, -1],
    [1, 0, -1],
    [1, 1, 1],
    [1, -1, 0],
];

const SQUARES_LIST: [[i64; 3]; 5] = [[1, -1, 0], [1, 0, -1], [1, 0, 0], [1, 0, 1], [1, 1, 0]];

const SQUARES_TOLD: [(u64, u64); 7] = [(3, 10), (4, 8), (5, 8), (6, 6), (7, 6), (8, 5), (9, 5)];

// No coordinate; a cone of two rays; both signs of one coordinate; magic squares by their entry in the
// middle and two differences, with each of the refusals; a simplex that is cut, and stopped before.
const CASES: [Case; 9] = [
    Case {
        width: 0,
        rows: &[],
        limit: 5,
        told_before: 0,
        stop_at: 0,
        list: &[],
        refusal: None,
        told: &[(0, 0)],
    },
    Case {
        width: 2,
        rows: &[[-1, 2, 0], [3, -1, 0]],
        limit: 7,
        told_before: 0,
        stop_at: 0,
        list: &[[1, 1, 0], [1, 2, 0], [1, 3, 0], [2, 1, 0]],
        refusal: None,
        told: &[(2, 4)],
    },
    Case {
        width: 2,
        rows: &[[-1, 2, 0], [3, -1, 0]],
        limit: 3,
        told_before: 0,
        stop_at: 0,
        list: &[],
        refusal: Some(Work::TooMany),
        told: &[],
    },
    Case {
        width: 1,
        rows: &[[1, 0, 0], [-1, 0, 0]],
        limit: 5,
        told_before: 0,
        stop_at: 0,
        list: &[],
        refusal: None,
        told: &[(1, 1), (2, 0)],
    },
    Case {
        width: 3,
        rows: &SQUARES,
        limit: 20,
        told_before: 0,
        stop_at: 0,
        list: &SQUARES_LIST,
        refusal: None,
        told: &SQUARES_TOLD,
    },
    Case {
        width: 3,
        rows: &SQUARES,
        limit: 20,
        told_before: 6,
        stop_at: 0,
        list: &SQUARES_LIST,
        refusal: None,
        told: &[(9, 5)],
    },
    Case {
        width: 3,
        rows: &SQUARES,
        limit: 20,
        told_before: 2,
        stop_at: 2,
        list: &[],
        refusal: Some(Work::Stopped { stage: 6 }),
        told: &[(5, 8), (6, 6)],
    },
    Case {
        width: 2,
        rows: &[[1, -1, 0], [-1, 2, 0], [3, -1, 0]],
        limit: 7,
        told_before: 0,
        stop_at: 0,
        list: &[[1, 1, 0], [2, 1, 0]],
        refusal: None,
        told: &[(2, 2), (3, 2)],
    },
    Case {
        width: 2,
        rows: &[[1, -1, 0], [-1, 2, 0], [3, -1, 0]],
        limit: 7,
        told_before: 0,
        stop_at: 1,
        list: &[],
        refusal: Some(Work::Stopped { stage: 2 }),
        told: &[(2, 2)],
    },
];

fn row<T: Scalar>(alloc: Global, entries: &[i64], width: usize) -> Result<Row<T>, Fail>
    ensures { IfOk result (λ r. length r ≡ width) }
{
    let mut values = match Vec::with_capacity(alloc, width) {
        Ok(values) => values,
        Err(_) => return Err(Fail::from("no memory")),
    };
    for place in 0..width {
        let entry = entries.get(place).copied().unwrap_or(0);
        values.push_reserved(T::of_i64(entry));
    }
    Ok(Row::from_vec(values))
}

fn rows_of<T: Scalar>(alloc: Global, entries: &[[i64; 3]], width: usize) -> Result<Rows<T>, Fail>
    ensures { IfOk result (Each (HasWidth width)) }
{
    let mut rows = Rows::new(alloc);
    for place in 0..entries.len() {
        rows = match with(alloc, rows, &entries[place], width) {
            Ok(rows) => rows,
            Err(fail) => return Err(fail),
        };
    }
    Ok(rows)
}

fn with<T: Scalar>(
    alloc: Global,
    mut rows: Rows<T>,
    entries: &[i64],
    width: usize,
) -> Result<Rows<T>, Fail>
    requires { Each (HasWidth width) rows }
    ensures { IfOk result (Each (HasWidth width)) }
{
    match row(alloc, entries, width) {
        Ok(row) => match rows.push(row) {
            Ok(()) => Ok(rows),
            Err(_) => Err(Fail::from("no memory")),
        },
        Err(fail) => Err(fail),
    }
}

fn watch_of(alloc: Global, stop_at: u64) -> Result<MemWatch, Fail> {
    let watch = match stop_at {
        0 => MemWatch::new(alloc, 9, None),
        number => MemWatch::new(alloc, 9, Some(number)),
    };
    match watch {
        Ok(watch) => Ok(watch),
        Err(_) => Err(Fail::from("no memory")),
    }
}

fn is_told(watch: &Box<dyn Watch>, wanted: &[(u64, u64)]) -> bool {
    for place in 0..wanted.len() {
        if watch.pair(place) != Some(wanted[place]) {
            return false;
        }
    }
    watch.pair(wanted.len()) == None
}

fn reads<T: Scalar>(row: &Row<T>, entries: [i64; 3]) -> bool {
    for place in 0..row.len() {
        if place < 3 && row.at(place).to_i128() != i128::from(entries[place]) {
            return false;
        }
    }
    true
}

fn is_list<T: Scalar>(list: &Rows<T>, wanted: &[[i64; 3]]) -> bool {
    if list.len() != wanted.len() {
        return false;
    }
    for place in 0..wanted.len() {
        if place < list.len() && !reads(list.at(place), wanted[place]) {
            return false;
        }
    }
    true
}

fn is_wanted<T: Scalar>(answer: &Result<Rows<T>, Work>, case: Case) -> bool {
    match answer {
        Ok(list) => case.refusal == None && is_list(list, case.list),
        Err(refusal) => case.refusal == Some(*refusal),
    }
}

fn agrees<T: Scalar>(
    alloc: Global,
    rows: &Rows<T>,
    simplex: &Simplex<T>,
    case: Case,
) -> Result<bool, Fail>
    requires wide { Each (HasWidth (length simplex.now.places)) rows.now }
    requires simplex { IsSimplexOf (length simplex.now.places) rows.now simplex.now.places simplex.now.rays }
{
    let watch = match watch_of(alloc, case.stop_at) {
        Ok(watch) => watch,
        Err(fail) => return Err(fail),
    };
    let mut watch: Box<dyn Watch> = match Box::new(alloc, watch) {
        Ok(watch) => watch,
        Err(_) => return Err(Fail::from("no memory")),
    };
    let answer = dual(
        alloc,
        rows,
        simplex,
        case.limit,
        case.told_before,
        &mut watch,
    );
    Ok(is_wanted(&answer, case) && is_told(&watch, case.told))
}

fn is_run<T: Scalar>(alloc: Global, case: Case) -> Result<bool, Fail> {
    let rows = match rows_of::<T>(alloc, case.rows, case.width) {
        Ok(rows) => rows,
        Err(fail) => return Err(fail),
    };
    let pointed = match start(alloc, &rows, case.width) {
        Ok(pointed) => pointed,
        Err(_) => return Ok(false),
    };
    match pointed {
        Pointed::Simplex(simplex) => agrees(alloc, &rows, &simplex, case),
        Pointed::Line(_) => Ok(false),
    }
}

#[test]
fn runs(rt: HostRuntime) -> Result<(), Fail> {
    for case in CASES {
        assert!(rt; is_run::<i64>(rt.alloc(), case)?);
        assert!(rt; is_run::<i128>(rt.alloc(), case)?);
    }
    Ok(())
}
