ghost use Rattle.std.specs.Prelude.{◌≡◌, pos, negsuc, [], ◌∷◌, IfOk, map};
ghost use Rattle.nz_classes.specs.Walks.{IsFullSimplex};

use nz_classes::walk;
use nz_vec::{Row, Rows, Scalar, Work};
use std::alloc::Global;
use std::process::Abort;
use std::test::Fail;

// The points of the half-open parallelepiped of (1, 3) and (2, 1).
const POINTS: [[i64; 2]; 5] = [[0, 0], [1, 1], [1, 2], [2, 2], [2, 3]];

fn pair<T: Scalar>(alloc: Global, first: i64, second: i64) -> Result<Row<T>, Fail>
    ensures { IfOk result (λ r. r ≡ first ∷ second ∷ []) }
{
    let mut entries = Vec::new(alloc);
    entries.push(T::of_i64(first))?;
    entries.push(T::of_i64(second))?;
    Ok(Row::from_vec(entries))
}

fn pairs<T: Scalar>(alloc: Global, first: Row<T>, second: Row<T>) -> Result<Rows<T>, Fail>
    ensures { IfOk result (λ rows. rows ≡ first ∷ second ∷ []) }
{
    let mut rows = Rows::new(alloc);
    rows.push(first)?;
    rows.push(second)?;
    Ok(rows)
}

// The sides (1, 3) and (2, 1).
fn sides<T: Scalar>(alloc: Global) -> Result<Rows<T>, Fail>
    ensures { IfOk result (λ rows. rows ≡ (pos 1 ∷ pos 3 ∷ []) ∷ (pos 2 ∷ pos 1 ∷ []) ∷ []) }
{
    pairs(alloc, pair(alloc, 1, 3)?, pair(alloc, 2, 1)?)
}

// Their forms.
fn forms<T: Scalar>(alloc: Global) -> Result<Rows<T>, Fail>
    ensures { IfOk result (λ rows. rows ≡ (negsuc 0 ∷ pos 2 ∷ []) ∷ (pos 3 ∷ negsuc 0 ∷ []) ∷ []) }
{
    pairs(alloc, pair(alloc, -1, 2)?, pair(alloc, 3, -1)?)
}

fn reads<T: Scalar>(row: &Row<T>, entries: [i64; 2]) -> bool {
    let [first, second] = entries;
    row.len() == 2
        && row.at(0).to_i128() == i128::from(first)
        && row.at(1).to_i128() == i128::from(second)
}

fn lists<T: Scalar>(points: &Rows<T>) -> bool {
    if points.len() != 5 {
        return false;
    }
    for place in 0..5 {
        if !reads(points.at(place), POINTS[place]) {
            return false;
        }
    }
    true
}

// Five points within a limit of five, and too many within four.
fn walks<T: Scalar>(rt: &impl Abort, alloc: Global) -> Result<(), Fail> {
    let sides = sides::<T>(alloc)?;
    let forms = forms::<T>(alloc)?;
    let all = match walk(alloc, &sides, &forms, 5) {
        Ok(points) => lists(&points),
        Err(_) => false,
    };
    let none = match walk(alloc, &sides, &forms, 4) {
        Ok(_) => false,
        Err(refusal) => refusal == Work::TooMany,
    };
    assert!(rt; all);
    assert!(rt; none);
    Ok(())
}

#[test]
fn walks_narrow(rt: HostRuntime) -> Result<(), Fail> {
    walks::<i64>(&rt, rt.alloc())
}

#[test]
fn walks_wide(rt: HostRuntime) -> Result<(), Fail> {
    walks::<i128>(&rt, rt.alloc())
}
