ghost use Rattle.std.specs.Prelude.{◌≡◌, IfOk, length};
ghost use Rattle.std.specs.List.{AllByRecursion as Each};
ghost use Rattle.nz_spec.specs.Vectors.{HasWidth};

use nz_pointed::{Pointed, start};
use nz_rays::Double;
use nz_vec::{Places, Row, Rows, Scalar};
use std::alloc::Global;
use std::process::Abort;
use std::test::Fail;

// Two rows, a third that is added, and the rays then.
#[derive(Clone, Copy)]
struct Case {
    rows: [[i64; 2]; 2],
    added: [i64; 2],
    rays: [[i64; 2]; 2],
}

const CASES: [Case; 3] = [
    Case {
        rows: [[1, 0], [0, 1]],
        added: [1, -1],
        rays: [[1, 0], [1, 1]],
    },
    Case {
        rows: [[1, 3], [2, 1]],
        added: [3, 4],
        rays: [[-1, 2], [3, -1]],
    },
    Case {
        rows: [[-1, 2], [3, -1]],
        added: [-2, 3],
        rays: [[1, 3], [3, 2]],
    },
];

// A row that is added to the rows so far on three coordinates, and the rays then, each with the
// places of the two rows that are 0 at it.
#[derive(Clone, Copy)]
struct Step {
    added: [i64; 3],
    count: usize,
    rays: [[i64; 3]; 3],
    zeros: [[usize; 2]; 3],
}

// The second step meets rays on both sides that are not adjacent.
const STEPS: [Step; 2] = [
    Step {
        added: [1, 1, -1],
        count: 4,
        rays: [[1, 0, 0], [1, 0, 1], [0, 1, 1]],
        zeros: [[1, 2], [1, 3], [0, 3]],
    },
    Step {
        added: [1, 0, -1],
        count: 3,
        rays: [[1, 0, 0], [0, 1, 0], [1, 0, 1]],
        zeros: [[1, 2], [0, 2], [1, 3]],
    },
];

fn row<T: Scalar>(alloc: Global, entries: &[i64]) -> Result<Row<T>, Fail>
    ensures { IfOk result (λ r. length r ≡ length entries.now) }
{
    let mut values = match Vec::with_capacity(alloc, entries.len()) {
        Ok(values) => values,
        Err(_) => return Err(Fail::from("no memory")),
    };
    for entry in entries {
        values.push_reserved(T::of_i64(*entry));
    }
    Ok(Row::from_vec(values))
}

fn with<T: Scalar>(
    alloc: Global,
    mut rows: Rows<T>,
    entries: &[i64],
    width: usize,
) -> Result<Rows<T>, Fail>
    requires rows { Each (HasWidth width) rows }
    requires entries { length entries.now ≡ width }
    ensures { IfOk result (Each (HasWidth width)) }
{
    match row(alloc, entries) {
        Ok(row) => match rows.push(row) {
            Ok(()) => Ok(rows),
            Err(_) => Err(Fail::from("no memory")),
        },
        Err(fail) => Err(fail),
    }
}

fn started<T: Scalar>(alloc: Global, rows: &Rows<T>, rank: usize) -> Result<Double<T>, Fail>
    requires { Each (HasWidth rank) rows.now }
    ensures { IfOk result (λ d. d.width ≡ rank) }
{
    let pointed = match start(alloc, rows, rank) {
        Ok(pointed) => pointed,
        Err(_) => return Err(Fail::from("refused")),
    };
    let simplex = match pointed {
        Pointed::Simplex(simplex) => simplex,
        Pointed::Line(_) => return Err(Fail::from("a line")),
    };
    match Double::new(alloc, rows, &simplex) {
        Ok(double) => Ok(double),
        Err(_) => Err(Fail::from("refused")),
    }
}

fn reads<T: Scalar>(row: &Row<T>, entries: &[i64]) -> bool {
    if row.len() != entries.len() {
        return false;
    }
    for place in 0..row.len() {
        if row.at(place).to_i128() != i128::from(entries[place]) {
            return false;
        }
    }
    true
}

// The place of this ray.
fn place_of<T: Scalar>(rays: &Rows<T>, entries: &[i64]) -> Option<usize> {
    for place in 0..rays.len() {
        if reads(rays.at(place), entries) {
            return Some(place);
        }
    }
    None
}

fn are(places: &Places, wanted: [usize; 2]) -> bool {
    let [first, second] = wanted;
    places.len() > 1 && places.at(0) == first && places.at(1) == second
}

// Whether this ray is there, with its zeros at these places.
fn has<T: Scalar>(double: &Double<T>, ray: &[i64], zeros: [usize; 2]) -> bool {
    match place_of(double.rays(), ray) {
        Some(place) => place < double.rays().len() && are(double.zero_set(place), zeros),
        None => false,
    }
}

fn has_just<T: Scalar>(double: &Double<T>, rays: [[i64; 2]; 2]) -> bool {
    let [first, second] = rays;
    let has_first = place_of(double.rays(), &first).is_some();
    let has_second = place_of(double.rays(), &second).is_some();
    double.rays().len() == 2 && has_first && has_second
}

fn plane<T: Scalar>(rt: &impl Abort, alloc: Global) -> Result<(), Fail> {
    for case in CASES {
        let [first, second] = case.rows;
        let rows = with(alloc, Rows::new(alloc), &first, 2)?;
        let rows = with(alloc, rows, &second, 2)?;
        let mut double = started::<T>(alloc, &rows, 2)?;
        let added = row(alloc, &case.added)?;
        double.add(alloc, &added).or(Err("refused"))?;
        assert!(rt; has_just(&double, case.rays));
    }
    Ok(())
}

fn is_at<T: Scalar>(double: &Double<T>, step: Step) -> bool {
    let [first, second, third] = step.rays;
    let [at_first, at_second, at_third] = step.zeros;
    double.rays().len() == step.count
        && has(double, &first, at_first)
        && has(double, &second, at_second)
        && has(double, &third, at_third)
}

fn unit_rows<T: Scalar>(alloc: Global) -> Result<Rows<T>, Fail>
    ensures { IfOk result (Each (HasWidth 3)) }
{
    let rows = with(alloc, Rows::new(alloc), &[1, 0, 0], 3)?;
    let rows = with(alloc, rows, &[0, 1, 0], 3)?;
    with(alloc, rows, &[0, 0, 1], 3)
}

fn space<T: Scalar>(rt: &impl Abort, alloc: Global) -> Result<(), Fail> {
    let rows = unit_rows(alloc)?;
    let mut double = started::<T>(alloc, &rows, 3)?;
    for step in STEPS {
        let added = row(alloc, &step.added)?;
        double.add(alloc, &added).or(Err("refused"))?;
        assert!(rt; is_at(&double, step));
    }
    Ok(())
}

#[test]
fn doubles(rt: HostRuntime) -> Result<(), Fail> {
    plane::<i64>(&rt, rt.alloc())?;
    plane::<i128>(&rt, rt.alloc())?;
    space::<i64>(&rt, rt.alloc())?;
    space::<i128>(&rt, rt.alloc())
}
