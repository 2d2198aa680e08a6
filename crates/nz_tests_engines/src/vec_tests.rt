ghost use Rattle.std.specs.Prelude.{◌≡◌, length};

use nz_vec::{Constraint, Constraints, Row, RowLists, Rows, Scalar, cmp_order};
use std::alloc::Global;
use std::cmp::Ordering;
use std::process::Abort;
use std::test::Fail;

// Two rows with their factors.
#[derive(Clone, Copy)]
struct Case {
    factors: [i64; 2],
    rows: [[i64; 2]; 2],
    combined: [i64; 2],
    primitive: [i64; 2],
    dot: i64,
    order: Ordering,
}

const CASES: [Case; 3] = [
    Case {
        factors: [2, -1],
        rows: [[1, 1], [1, 2]],
        combined: [1, 0],
        primitive: [1, 1],
        dot: 3,
        order: Ordering::Less,
    },
    Case {
        factors: [1, 1],
        rows: [[4, -6], [0, 6]],
        combined: [4, 0],
        primitive: [2, -3],
        dot: -36,
        order: Ordering::Greater,
    },
    Case {
        factors: [0, 3],
        rows: [[0, 0], [0, 0]],
        combined: [0, 0],
        primitive: [0, 0],
        dot: 0,
        order: Ordering::Equal,
    },
];

fn row<T: Scalar>(alloc: Global, entries: [i64; 2]) -> Result<Row<T>, Fail> {
    let mut values = Vec::new(alloc);
    for entry in entries {
        values.push(T::of_i64(entry))?;
    }
    Ok(Row::of(alloc, values.as_slice()).or(Err("no memory"))?)
}

fn reads<T: Scalar>(row: &Row<T>, entries: [i64; 2]) -> bool {
    let [first, second] = entries;
    row.len() == 2
        && row.at(0).to_i128() == i128::from(first)
        && row.at(1).to_i128() == i128::from(second)
}

fn combines<T: Scalar>(u: &Row<T>, v: &Row<T>, case: Case, alloc: Global) -> bool
    requires { length u.now ≡ length v.now }
{
    let [a, b] = case.factors;
    match Row::combine(alloc, T::of_i64(a), u, T::of_i64(b), v) {
        Ok(row) => reads(&row, case.combined),
        Err(_) => false,
    }
}

fn divides<T: Scalar>(u: &Row<T>, case: Case) -> bool {
    match u.primitive() {
        Ok(row) => reads(&row, case.primitive),
        Err(_) => false,
    }
}

fn widens<T: Scalar>(u: &Row<T>, entries: [i64; 2]) -> bool {
    match u.widen() {
        Ok(row) => reads(&row, entries),
        Err(_) => false,
    }
}

fn copies<T: Scalar>(u: &Row<T>, case: Case) -> bool {
    let [first, _] = case.rows;
    match u.try_copy() {
        Ok(copy) => widens(&copy, first),
        Err(_) => false,
    }
}

fn compares<T: Scalar>(u: &Row<T>, v: &Row<T>, case: Case) -> bool
    requires { length u.now ≡ length v.now }
{
    let [a, _] = case.factors;
    cmp_order(T::of_i64(a), u, T::of_i64(a), v) == case.order
}

fn multiplies<T: Scalar>(u: &Row<T>, v: &Row<T>, case: Case) -> bool
    requires { length u.now ≡ length v.now }
{
    match u.dot(v) {
        Some(d) => d.to_i128() == i128::from(case.dot),
        None => false,
    }
}

fn agrees<T: Scalar>(u: &Row<T>, v: &Row<T>, case: Case, alloc: Global) -> bool {
    u.len() == v.len()
        && combines(u, v, case, alloc)
        && divides(u, case)
        && copies(u, case)
        && compares(u, v, case)
        && multiplies(u, v, case)
}

fn reckons<T: Scalar>(rt: &impl Abort, alloc: Global) -> Result<(), Fail> {
    for case in CASES {
        let [u, v] = case.rows;
        let u = row::<T>(alloc, u)?;
        let v = row::<T>(alloc, v)?;
        assert!(rt; agrees(&u, &v, case, alloc));
    }
    Ok(())
}

fn lists_of<T: Scalar>(alloc: Global) -> Result<RowLists<T>, Fail> {
    let mut rows = Rows::new(alloc);
    rows.push(row::<T>(alloc, [5, 7])?).or(Err("no memory"))?;
    let mut lists = RowLists::new(alloc);
    lists.push(rows).or(Err("no memory"))?;
    Ok(lists)
}

fn constraints_of<T: Scalar>(alloc: Global) -> Result<Constraints<T>, Fail> {
    let mut constraints = Constraints::new(alloc);
    constraints
        .push(Constraint::NotNegative(row::<T>(alloc, [5, 7])?))
        .or(Err("no memory"))?;
    Ok(constraints)
}

fn keeps_rows<T: Scalar>(lists: &RowLists<T>) -> bool {
    lists.len() == 1 && lists.at(0).len() == 1 && reads(lists.at(0).at(0), [5, 7])
}

fn keeps_form<T: Scalar>(constraints: &Constraints<T>) -> bool {
    if constraints.len() != 1 {
        return false;
    }
    match constraints.at(0) {
        Constraint::NotNegative(form) => reads(form, [5, 7]),
        _ => false,
    }
}

fn keeps<T: Scalar>(rt: &impl Abort, alloc: Global) -> Result<(), Fail> {
    let lists = lists_of::<T>(alloc)?;
    assert!(rt; keeps_rows(&lists));
    let constraints = constraints_of::<T>(alloc)?;
    assert!(rt; keeps_form(&constraints));
    Ok(())
}

#[test]
fn rows(rt: HostRuntime) -> Result<(), Fail> {
    reckons::<i64>(&rt, rt.alloc())?;
    reckons::<i128>(&rt, rt.alloc())?;
    keeps::<i64>(&rt, rt.alloc())?;
    keeps::<i128>(&rt, rt.alloc())
}
