ghost use Rattle.std.specs.Prelude.{◌≡◌, pos, negsuc, [], ◌∷◌, length, IfOk};
ghost use Rattle.std.specs.Rc.{rc_slice_items};
ghost use Rattle.std.specs.List.{AllByRecursion as Each};
ghost use Rattle.nz_spec.specs.Vectors.{HasWidth};

use nz_reducer::{DegreeTable, ListTable, Table, irreducibles};
use nz_vec::{Row, Rows, Scalar};
use std::alloc::Global;
use std::process::Abort;
use std::rc::RcSlice;
use std::test::Fail;

// The points of the half-open parallelepiped of (1, 3) and (2, 1), and these two; and what is left of them.
const CANDIDATES: [[i64; 2]; 7] = [[0, 0], [1, 1], [1, 2], [2, 2], [2, 3], [1, 3], [2, 1]];

const KEPT: [[i64; 2]; 4] = [[1, 1], [1, 2], [1, 3], [2, 1]];

// The entries of a table; values, and the place of the first entry that is at most these.
const ENTRIES: [[i64; 2]; 3] = [[3, 1], [1, 2], [2, 4]];

const SOUGHT: [([i64; 2], Option<usize>); 4] = [
    ([2, 4], Some(1)),
    ([3, 1], Some(0)),
    ([0, 9], None),
    ([9, 9], Some(0)),
];

fn row<T: Scalar>(alloc: Global, first: i64, second: i64) -> Result<Row<T>, Fail>
    ensures { IfOk result (λ r. r ≡ first ∷ second ∷ []) }
{
    let mut values = match Vec::with_capacity(alloc, 2) {
        Ok(values) => values,
        Err(_) => return Err(Fail::from("no memory")),
    };
    values.push_reserved(T::of_i64(first));
    values.push_reserved(T::of_i64(second));
    Ok(Row::from_vec(values))
}

// The forms of that simplex.
fn forms<T: Scalar>(alloc: Global) -> Result<Rows<T>, Fail>
    ensures { IfOk result (λ r. r ≡ (negsuc 0 ∷ pos 2 ∷ []) ∷ (pos 3 ∷ negsuc 0 ∷ []) ∷ []) }
{
    let mut rows = Rows::new(alloc);
    rows.push(row(alloc, -1, 2)?)?;
    rows.push(row(alloc, 3, -1)?)?;
    Ok(rows)
}

fn vectors<T: Scalar>(alloc: Global) -> Result<Rows<T>, Fail>
    ensures { IfOk result (λ r. Each (HasWidth 2) r) }
{
    let mut rows = Rows::new(alloc);
    for entries in &CANDIDATES {
        rows.push(row(alloc, entries[0], entries[1])?)?;
    }
    Ok(rows)
}

fn reads<T: Scalar>(row: &Row<T>, entries: [i64; 2]) -> bool {
    let [first, second] = entries;
    row.len() == 2
        && row.at(0).to_i128() == i128::from(first)
        && row.at(1).to_i128() == i128::from(second)
}

fn reduces<T: Scalar>(rt: &impl Abort, alloc: Global) -> Result<(), Fail> {
    let candidates = vectors::<T>(alloc)?;
    let rows = forms::<T>(alloc)?;
    let kept = irreducibles(alloc, &candidates, &rows)?;
    assert!(rt; kept.len() == 4);
    for place in 0..4 {
        assert!(rt; reads(kept.at(place), KEPT[place]));
    }
    Ok(())
}

fn table<T: Scalar>(alloc: Global) -> Result<ListTable<T>, Fail>
    ensures { IfOk result (λ t. t.columns ≡ 2) }
{
    let mut table = ListTable::new(alloc, 2)?;
    for entries in &ENTRIES {
        table.put(&row(alloc, entries[0], entries[1])?)?;
    }
    Ok(table)
}

fn finds<T: Scalar>(rt: &impl Abort, alloc: Global) -> Result<(), Fail> {
    let table = table::<T>(alloc)?;
    for (values, place) in SOUGHT {
        let values = row::<T>(alloc, values[0], values[1])?;
        assert!(rt; table.first(&values) == place);
    }
    Ok(())
}

fn degree_table<T: Scalar>(alloc: Global) -> Result<DegreeTable<T>, Fail>
    ensures { IfOk result (λ t. t.columns ≡ 2) }
{
    let mut table = DegreeTable::new(alloc, 2)?;
    for entries in &ENTRIES {
        table.put(&row(alloc, entries[0], entries[1])?)?;
    }
    Ok(table)
}

// The slice of two values.
fn slice<T: Scalar>(alloc: Global, first: i64, second: i64) -> Result<RcSlice<T>, Fail>
    ensures { IfOk result (λ s. length (rc_slice_items s) ≡ 2) }
{
    let mut values = match Vec::with_capacity(alloc, 2) {
        Ok(values) => values,
        Err(_) => return Err(Fail::from("no memory")),
    };
    values.push_reserved(T::of_i64(first));
    values.push_reserved(T::of_i64(second));
    match RcSlice::from_vec(values) {
        Ok(slice) => Ok(slice),
        Err(_) => Err(Fail::from("no memory")),
    }
}

// The same table, whose entries are shared.
fn shared_table<T: Scalar>(alloc: Global) -> Result<DegreeTable<T>, Fail>
    ensures { IfOk result (λ t. t.columns ≡ 2) }
{
    let mut table = DegreeTable::new(alloc, 2)?;
    for entries in &ENTRIES {
        table.put_shared(&slice(alloc, entries[0], entries[1])?)?;
    }
    Ok(table)
}

// A thousand entries with the sum 1000.
fn level_table<T: Scalar>(alloc: Global) -> Result<DegreeTable<T>, Fail>
    ensures { IfOk result (λ t. t.columns ≡ 2) }
{
    let mut table = DegreeTable::new(alloc, 2)?;
    for first in 1..1001 {
        table.put(&row(alloc, first, 1000i64.saturating_sub(first))?)?;
    }
    Ok(table)
}

// No entry with a larger sum than the values is compared.
fn counts<T: Scalar>(rt: &impl Abort, alloc: Global) -> Result<(), Fail> {
    let mut table = level_table::<T>(alloc)?;
    assert!(rt; table.first_counted(&row(alloc, 1, 1)?) == (None, 0));
    assert!(rt; table.first_counted(&row(alloc, 0, 1000)?) == (None, 1000));
    assert!(rt; table.has_any_below(&row(alloc, 9, 995)?));
    assert!(rt; !table.has_below(&row(alloc, 9, 995)?, T::of_i64(999)));
    Ok(())
}

fn finds_by_sums<T: Scalar>(rt: &impl Abort, alloc: Global) -> Result<(), Fail> {
    let table = degree_table::<T>(alloc)?;
    let shared = shared_table::<T>(alloc)?;
    for (values, place) in SOUGHT {
        let values = row::<T>(alloc, values[0], values[1])?;
        assert!(rt; table.first(&values) == place);
        assert!(rt; shared.first(&values) == place);
    }
    Ok(())
}

// An entry whose sum is no value of the type is found among the others.
fn finds_without_sum(rt: &impl Abort, alloc: Global) -> Result<(), Fail> {
    let mut table = DegreeTable::<i64>::new(alloc, 2)?;
    table.put(&row(alloc, 5, 5)?)?;
    table.put(&row(alloc, i64::MAX, 1)?)?;
    table.put(&row(alloc, i64::MIN, -1)?)?;
    assert!(rt; table.first(&row(alloc, i64::MAX, 2)?) == Some(1));
    assert!(rt; table.first(&row(alloc, i64::MAX, 0)?) == Some(2));
    assert!(rt; table.first(&row(alloc, 0, -2)?) == None);
    Ok(())
}

#[test]
fn worked_rows(rt: HostRuntime) -> Result<(), Fail> {
    reduces::<i64>(&rt, rt.alloc())?;
    reduces::<i128>(&rt, rt.alloc())?;
    finds::<i64>(&rt, rt.alloc())?;
    finds::<i128>(&rt, rt.alloc())
}

#[test]
fn tables_by_sums(rt: HostRuntime) -> Result<(), Fail> {
    finds_by_sums::<i64>(&rt, rt.alloc())?;
    finds_by_sums::<i128>(&rt, rt.alloc())?;
    counts::<i64>(&rt, rt.alloc())?;
    counts::<i128>(&rt, rt.alloc())?;
    finds_without_sum(&rt, rt.alloc())
}
