ghost use Rattle.std.specs.Prelude.{◌≡◌, IfOk, length};
ghost use Rattle.std.specs.List.{AllByRecursion as Each};
ghost use Rattle.nz_spec.specs.Vectors.{HasWidth};

use nz_facets::{cone_constraints, describe};
use nz_vec::{Num, Row, Rows, Scalar};
use std::alloc::Global;
use std::process::Abort;
use std::test::Fail;

// Three generators on three coordinates, and what is wanted: how many support forms and equations
// there are, and the first of each.
#[derive(Clone, Copy)]
struct Case {
    gens: [[i64; 3]; 3],
    support_count: usize,
    support: [i64; 3],
    equation_count: usize,
    equation: [i64; 3],
}

const CASES: [Case; 5] = [
    Case {
        gens: [[1, 3, 0], [2, 1, 0], [0, 0, 1]],
        support_count: 3,
        support: [-1, 2, 0],
        equation_count: 0,
        equation: [0, 0, 0],
    },
    Case {
        gens: [[1, 0, 0], [1, 2, 0], [1, 1, 0]],
        support_count: 2,
        support: [0, 1, 0],
        equation_count: 1,
        equation: [0, 0, 1],
    },
    Case {
        gens: [[1, 2, 0], [2, 4, 0], [0, 0, 0]],
        support_count: 1,
        support: [1, 0, 0],
        equation_count: 2,
        equation: [-2, 1, 0],
    },
    Case {
        gens: [[1, 1, 0], [1, -1, 0], [-1, 0, 0]],
        support_count: 0,
        support: [0, 0, 0],
        equation_count: 1,
        equation: [0, 0, 1],
    },
    Case {
        gens: [[0, 0, 0], [0, 0, 0], [0, 0, 0]],
        support_count: 0,
        support: [0, 0, 0],
        equation_count: 3,
        equation: [1, 0, 0],
    },
];

// A support form of these generators has the entry 10^36.
const LARGE: [[i64; 3]; 3] = [
    [1000000000000000000, 1, 0],
    [0, 1000000000000000000, 1],
    [1, 0, 1000000000000000000],
];

fn row<T: Scalar>(alloc: Global, entries: [i64; 3]) -> Result<Row<T>, Fail>
    ensures { IfOk result (λ r. length r ≡ 3) }
{
    let [first, second, third] = entries;
    let mut values = match Vec::with_capacity(alloc, 3) {
        Ok(values) => values,
        Err(_) => return Err(Fail::from("no memory")),
    };
    values.push_reserved(T::of_i64(first));
    values.push_reserved(T::of_i64(second));
    values.push_reserved(T::of_i64(third));
    Ok(Row::from_vec(values))
}

fn with<T: Scalar>(alloc: Global, mut rows: Rows<T>, entries: [i64; 3]) -> Result<Rows<T>, Fail>
    requires { Each (HasWidth 3) rows }
    ensures { IfOk result (Each (HasWidth 3)) }
{
    match row(alloc, entries) {
        Ok(row) => match rows.push(row) {
            Ok(()) => Ok(rows),
            Err(_) => Err(Fail::from("no memory")),
        },
        Err(fail) => Err(fail),
    }
}

fn rows_of<T: Scalar>(alloc: Global, entries: [[i64; 3]; 3]) -> Result<Rows<T>, Fail>
    ensures { IfOk result (Each (HasWidth 3)) }
{
    let mut rows = Rows::new(alloc);
    for entry in entries {
        rows = match with(alloc, rows, entry) {
            Ok(rows) => rows,
            Err(fail) => return Err(fail),
        };
    }
    Ok(rows)
}

fn reads<T: Scalar>(row: &Row<T>, entries: [i64; 3]) -> bool {
    let [first, second, third] = entries;
    row.len() == 3
        && row.at(0).to_i128() == i128::from(first)
        && row.at(1).to_i128() == i128::from(second)
        && row.at(2).to_i128() == i128::from(third)
}

// Whether there are so many rows, and this is the first.
fn begins<T: Scalar>(rows: &Rows<T>, count: usize, entries: [i64; 3]) -> bool {
    if rows.len() == 0 {
        count == 0
    } else {
        rows.len() == count && reads(rows.at(0), entries)
    }
}

fn describes<T: Scalar>(rt: &impl Abort, alloc: Global) -> Result<(), Fail> {
    for case in CASES {
        let gens = match rows_of::<T>(alloc, case.gens) {
            Ok(gens) => gens,
            Err(fail) => return Err(fail),
        };
        let description = describe(alloc, 3, &gens).or(Err("refused"))?;
        let is_wanted = begins(&description.support, case.support_count, case.support)
            && begins(&description.equations, case.equation_count, case.equation);
        assert!(rt; is_wanted);
        let constraints = cone_constraints(alloc, 3, &gens).or(Err("refused"))?;
        let count = description
            .support
            .len()
            .checked_add(description.equations.len());
        assert!(rt; Some(constraints.len()) == count);
    }
    Ok(())
}

fn is_range<T: Scalar>(alloc: Global) -> Result<bool, Fail> {
    let gens = match rows_of::<T>(alloc, LARGE) {
        Ok(gens) => gens,
        Err(fail) => return Err(fail),
    };
    match describe(alloc, 3, &gens) {
        Ok(_) => Ok(false),
        Err(refusal) => Ok(refusal == Num::Range),
    }
}

#[test]
fn worked_cones(rt: HostRuntime) -> Result<(), Fail> {
    describes::<i64>(&rt, rt.alloc())?;
    describes::<i128>(&rt, rt.alloc())?;
    let is_refused = is_range::<i64>(rt.alloc())?;
    assert!(&rt; is_refused);
    Ok(())
}
