ghost use Rattle.std.specs.Prelude.{◌≡◌, IfOk, length};
ghost use Rattle.std.specs.List.{AllByRecursion as Each};
ghost use Rattle.nz_spec.specs.Vectors.{HasWidth};

use nz_pointed::{Equations, Pointed, equations_of, start};
use nz_vec::{Row, Rows, Scalar};
use std::alloc::Global;
use std::process::Abort;
use std::test::Fail;

// Three rows on two coordinates, and what is wanted: the line, or the places and the rays of the simplex.
#[derive(Clone, Copy)]
struct Case {
    rows: [[i64; 2]; 3],
    line: bool,
    places: [usize; 2],
    vectors: [[i64; 2]; 2],
}

const CASES: [Case; 4] = [
    Case {
        rows: [[1, 0], [2, 0], [0, 0]],
        line: true,
        places: [0, 0],
        vectors: [[0, 1], [0, 1]],
    },
    Case {
        rows: [[1, 0], [2, 0], [0, 1]],
        line: false,
        places: [0, 2],
        vectors: [[1, 0], [0, 1]],
    },
    Case {
        rows: [[2, 1], [-1, 3], [1, 1]],
        line: false,
        places: [0, 1],
        vectors: [[3, 1], [-1, 2]],
    },
    Case {
        rows: [[2, 4], [-1, -2], [0, 0]],
        line: true,
        places: [0, 0],
        vectors: [[2, -1], [2, -1]],
    },
];

fn row<T: Scalar>(alloc: Global, entries: [i64; 2]) -> Result<Row<T>, Fail>
    ensures { IfOk result (λ r. length r ≡ 2) }
{
    let [first, second] = entries;
    let mut values = match Vec::with_capacity(alloc, 2) {
        Ok(values) => values,
        Err(_) => return Err(Fail::from("no memory")),
    };
    values.push_reserved(T::of_i64(first));
    values.push_reserved(T::of_i64(second));
    Ok(Row::from_vec(values))
}

fn with<T: Scalar>(alloc: Global, mut rows: Rows<T>, entries: [i64; 2]) -> Result<Rows<T>, Fail>
    requires { Each (HasWidth 2) rows }
    ensures { IfOk result (Each (HasWidth 2)) }
{
    match row(alloc, entries) {
        Ok(row) => match rows.push(row) {
            Ok(()) => Ok(rows),
            Err(_) => Err(Fail::from("no memory")),
        },
        Err(fail) => Err(fail),
    }
}

fn rows_of<T: Scalar>(alloc: Global, entries: [[i64; 2]; 3]) -> Result<Rows<T>, Fail>
    ensures { IfOk result (Each (HasWidth 2)) }
{
    let mut rows = Rows::new(alloc);
    for entry in entries {
        rows = match with(alloc, rows, entry) {
            Ok(rows) => rows,
            Err(fail) => return Err(fail),
        };
    }
    Ok(rows)
}

fn reads<T: Scalar>(row: &Row<T>, entries: [i64; 2]) -> bool {
    let [first, second] = entries;
    row.len() == 2
        && row.at(0).to_i128() == i128::from(first)
        && row.at(1).to_i128() == i128::from(second)
}

fn starts<T: Scalar>(rt: &impl Abort, alloc: Global) -> Result<(), Fail> {
    for case in CASES {
        let rows = match rows_of::<T>(alloc, case.rows) {
            Ok(rows) => rows,
            Err(fail) => return Err(fail),
        };
        let [first, second] = case.vectors;
        let is_wanted = match start(alloc, &rows, 2).or(Err("refused"))? {
            Pointed::Line(line) => case.line && reads(&line, first),
            Pointed::Simplex(simplex) => {
                !case.line
                    && simplex.places.len() == 2
                    && simplex.places.at(0) == case.places[0]
                    && simplex.places.at(1) == case.places[1]
                    && simplex.rays.len() == 2
                    && reads(simplex.rays.at(0), first)
                    && reads(simplex.rays.at(1), second)
            }
        };
        assert!(rt; is_wanted);
    }
    Ok(())
}

// Three rows on two coordinates, how many equations they have, and the first: its column and its form.
const DESCRIBED: [([[i64; 2]; 3], usize, usize, [i64; 2]); 3] = [
    ([[1, 2], [2, 4], [0, 0]], 1, 1, [-2, 1]),
    ([[0, 3], [0, -1], [0, 2]], 1, 0, [1, 0]),
    ([[0, 0], [0, 0], [0, 0]], 2, 0, [1, 0]),
];

// Whether there are so many equations, and this is the first.
fn begins<T: Scalar>(
    equations: &Equations<T>,
    count: usize,
    column: usize,
    form: [i64; 2],
) -> bool {
    if equations.columns.len() != count {
        return false;
    }
    if equations.forms.len() != count {
        return false;
    }
    if count == 0 {
        return true;
    }
    equations.columns.len() > 0
        && equations.forms.len() > 0
        && equations.columns.at(0) == column
        && reads(equations.forms.at(0), form)
}

fn describes<T: Scalar>(rt: &impl Abort, alloc: Global) -> Result<(), Fail> {
    for (entries, count, column, form) in DESCRIBED {
        let rows = match rows_of::<T>(alloc, entries) {
            Ok(rows) => rows,
            Err(fail) => return Err(fail),
        };
        let equations = equations_of(alloc, &rows, 2).or(Err("refused"))?;
        assert!(rt; begins(&equations, count, column, form));
    }
    Ok(())
}

#[test]
fn worked_rows(rt: HostRuntime) -> Result<(), Fail> {
    starts::<i64>(&rt, rt.alloc())?;
    starts::<i128>(&rt, rt.alloc())?;
    describes::<i64>(&rt, rt.alloc())?;
    describes::<i128>(&rt, rt.alloc())
}
