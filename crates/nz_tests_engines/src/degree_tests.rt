//! Degrees, at both widths.
ghost use Rattle.std.specs.Prelude.{◌≡◌, IfOk, length};
ghost use Rattle.std.specs.List.{AllByRecursion as Each};
ghost use Rattle.nz_spec.specs.Vectors.{HasWidth};

use nz_degree::{Positivity, check, degree_one, denominator, sort};
use nz_vec::{Row, Rows, Scalar};
use std::alloc::Global;
use std::test::Fail;

const GIVEN: [[i64; 2]; 4] = [[1, 2], [2, 1], [1, 3], [1, 1]];

// These rows in order by the second entry.
const IN_ORDER: [[i64; 2]; 4] = [[1, 1], [2, 1], [1, 2], [1, 3]];

fn row<T: Scalar>(alloc: Global, entries: [i64; 2]) -> Result<Row<T>, Fail>
    ensures { IfOk result (λ r. length r ≡ 2) }
{
    let [first, second] = entries;
    let mut values = match Vec::with_capacity(alloc, 2) {
        Ok(values) => values,
        Err(_) => return Err(Fail::from("no memory")),
    };
    values.push_reserved(T::of_i64(first));
    values.push_reserved(T::of_i64(second));
    Ok(Row::from_vec(values))
}

fn with<T: Scalar>(alloc: Global, mut rows: Rows<T>, entries: [i64; 2]) -> Result<Rows<T>, Fail>
    requires { Each (HasWidth 2) rows }
    ensures { IfOk result (Each (HasWidth 2)) }
{
    match row(alloc, entries) {
        Ok(row) => match rows.push(row) {
            Ok(()) => Ok(rows),
            Err(_) => Err(Fail::from("no memory")),
        },
        Err(fail) => Err(fail),
    }
}

fn rows_of<T: Scalar>(alloc: Global, entries: [[i64; 2]; 4]) -> Result<Rows<T>, Fail>
    ensures { IfOk result (Each (HasWidth 2)) }
{
    let mut rows = Rows::new(alloc);
    for entry in entries {
        rows = match with(alloc, rows, entry) {
            Ok(rows) => rows,
            Err(fail) => return Err(fail),
        };
    }
    Ok(rows)
}

fn reads<T: Scalar>(row: &Row<T>, entries: [i64; 2]) -> bool {
    let [first, second] = entries;
    row.len() == 2
        && row.at(0).to_i128() == i128::from(first)
        && row.at(1).to_i128() == i128::from(second)
}

fn lists<T: Scalar>(rows: &Rows<T>, wanted: &[[i64; 2]]) -> bool {
    if rows.len() != wanted.len() {
        return false;
    }
    for place in 0..wanted.len() {
        if place < rows.len() && !reads(rows.at(place), wanted[place]) {
            return false;
        }
    }
    true
}

fn checks<T: Scalar>(alloc: Global, entries: [i64; 2], wanted: Positivity) -> Result<bool, Fail> {
    let list = match rows_of::<T>(alloc, GIVEN) {
        Ok(list) => list,
        Err(fail) => return Err(fail),
    };
    let grading = match row::<T>(alloc, entries) {
        Ok(grading) => grading,
        Err(fail) => return Err(fail),
    };
    Ok(check(&grading, &list) == Ok(wanted))
}

// Whether the degrees by this grading have this denominator, and the rows of which it is the degree are picked.
fn picks<T: Scalar>(alloc: Global, entries: [i64; 2], divisor: i128) -> Result<bool, Fail> {
    let list = match rows_of::<T>(alloc, GIVEN) {
        Ok(list) => list,
        Err(fail) => return Err(fail),
    };
    let grading = match row::<T>(alloc, entries) {
        Ok(grading) => grading,
        Err(fail) => return Err(fail),
    };
    let found = match denominator(&grading, &list) {
        Ok(found) => found,
        Err(_) => return Ok(false),
    };
    match degree_one(alloc, &grading, found, &list) {
        Ok(one) => Ok(found.to_i128() == divisor && lists(&one, &[[2, 1], [1, 1]])),
        Err(_) => Ok(false),
    }
}

fn sorts<T: Scalar>(alloc: Global) -> Result<bool, Fail> {
    let mut list = match rows_of::<T>(alloc, GIVEN) {
        Ok(list) => list,
        Err(fail) => return Err(fail),
    };
    let grading = match row::<T>(alloc, [0, 1]) {
        Ok(grading) => grading,
        Err(fail) => return Err(fail),
    };
    match sort(alloc, &mut list, Some(&grading)) {
        Ok(()) => Ok(lists(&list, &IN_ORDER)),
        Err(_) => Ok(false),
    }
}

// The plane with the grading (1, -1): of its two elements (0, 1) alone is not positive.
fn names_the_fault<T: Scalar>(alloc: Global) -> Result<bool, Fail> {
    let one = with::<T>(alloc, Rows::new(alloc), [1, 0])?;
    let plane = with(alloc, one, [0, 1])?;
    let grading = row::<T>(alloc, [1, -1])?;
    Ok(check(&grading, &plane) == Ok(Positivity::NotPositive(1)))
}

fn grades<T: Scalar>(alloc: Global) -> Result<bool, Fail> {
    let is_positive = checks::<T>(alloc, [0, 1], Positivity::Positive)?;
    let is_named = checks::<T>(alloc, [2, -1], Positivity::NotPositive(2))?;
    let is_picked = picks::<T>(alloc, [0, 1], 1)? && picks::<T>(alloc, [0, 2], 2)?;
    let is_sorted = sorts::<T>(alloc)?;
    let is_first = names_the_fault::<T>(alloc)?;
    Ok(is_positive && is_named && is_picked && is_sorted && is_first)
}

#[test]
fn by_degree(rt: HostRuntime) -> Result<(), Fail> {
    assert!(rt; grades::<i64>(rt.alloc())?);
    assert!(rt; grades::<i128>(rt.alloc())?);
    Ok(())
}
