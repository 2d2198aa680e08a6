//! The rules of meaning of a file with monomials.
ghost use Rattle.std.specs.Prelude.{◌≡◌, ◌<◌, ◌≤◌, ◌+◌, [], length, take, slice_get, Some, List};
ghost use Rattle.std.specs.List.{AllByRecursion as Each};
ghost use Rattle.nz_input.specs.Files.{ItemData};
ghost use Rattle.nz_system.specs.Groups.{occurs};
ghost use Rattle.nz_system.specs.Rules.{first, count_rows};
ghost use Rattle.nz_ideal.specs.IdealRules.{has_negative, has_low_exponent, row_faults, rows_refusals, is_repeated, is_foreign, item_faults, item_refusals, items_refusals, goal_faults, ideal_refusals};

use nz_input::{File, Items, Kind};
use nz_system::{GoalSet, Group, MeaningFault, SystemRefusal, occurs, stands};
use nz_vec::{Row, Rows, is_negative};

fn has_negative(row: &Row<i64>) -> bool
    ensures { result ≡ has_negative row.now }
{
    for place in 0..row.len() {
        if is_negative(row.at(place)) {
            return true;
        }
    }
    false
}

fn has_low_exponent(kind: Kind, row: &Row<i64>) -> bool
    ensures { result ≡ has_low_exponent kind row.now }
{
    match kind {
        Kind::MonomialIdeal => has_negative(row),
        _ => false,
    }
}

// The first fault of a row, up to which so many rows stand in the file.
fn row_fault(kind: Kind, count: usize, row: &Row<i64>) -> Option<MeaningFault>
    ensures { result ≡ first (row_faults kind count row.now) }
{
    if count > 960 {
        Some(MeaningFault::RowLimit)
    } else if has_low_exponent(kind, row) {
        Some(MeaningFault::Exponent)
    } else {
        None
    }
}

fn rows_refusal(kind: Kind, item: u64, others: usize, rows: &Rows<i64>) -> Option<SystemRefusal>
    requires few { length rows.now ≤ 1024 }
    requires few_others { others ≤ 960 }
    ensures { result ≡ first (rows_refusals kind item 0 others rows.now) }
{
    for place in 0..rows.len() {
        match row_fault(kind, others + (place + 1), rows.at(place)) {
            Some(fault) => return Some(SystemRefusal::Meaning {
                item,
                row: place as u32 + 1,
                fault,
            }),
            None => {}
        }
    }
    None
}

fn is_repeated(kind: Kind, items: &Items, before: usize) -> bool
    requires { before ≤ length items.now }
    ensures { result ≡ is_repeated (take before items.now) kind }
{
    match kind {
        Kind::Grading => occurs(Group::Grading, items, before),
        _ => false,
    }
}

fn is_foreign(kind: Kind) -> bool
    ensures { result ≡ is_foreign kind }
{
    match kind {
        Kind::MonomialIdeal | Kind::Grading | Kind::Ask => false,
        _ => true,
    }
}

// The first fault of an item as a whole.
fn item_fault(kind: Kind, items: &Items, before: usize) -> Option<MeaningFault>
    requires { before ≤ length items.now }
    ensures { result ≡ first (item_faults (take before items.now) kind) }
{
    if is_repeated(kind, items, before) {
        Some(MeaningFault::Repeated)
    } else if is_foreign(kind) {
        Some(MeaningFault::Mixed)
    } else {
        None
    }
}

fn goal_fault(graded: bool, goals: GoalSet) -> Option<MeaningFault>
    ensures { (items : List ItemData) → graded ≡ occurs Group.Grading items → result ≡ first (goal_faults items goals) }
{
    if goals.degree_one && !graded {
        Some(MeaningFault::NoGrading)
    } else {
        None
    }
}

// The first refusal for the item at a place: as a whole, and then row by row.
fn item_refusal(items: &Items, place: usize, number: u64, others: usize) -> Option<SystemRefusal>
    requires within { place < length items.now }
    requires number { number ≡ place + 1 }
    requires few { Each (λ (item : ItemData). length item.rows ≤ 1024) items.now }
    requires few_others { others ≤ 960 }
    requires others { others ≡ count_rows (take place items.now) }
    ensures { (item : ItemData) → slice_get items.now place ≡ Some item → result ≡ first (item_refusals (take place items.now) item) }
{
    let item = items.at(place);
    match item_fault(item.kind, items, place) {
        Some(fault) => Some(SystemRefusal::Meaning {
            item: number,
            row: 0,
            fault,
        }),
        None => rows_refusal(item.kind, number, others, &item.rows),
    }
}

// The first refusal for the items.
fn items_refusal(items: &Items) -> Option<SystemRefusal>
    requires few { Each (λ (item : ItemData). length item.rows ≤ 1024) items.now }
    ensures { result ≡ first (items_refusals [] items.now) }
{
    let mut others = 0;
    for place in 0..items.len() {
        match item_refusal(items, place, place as u64 + 1, others) {
            Some(refusal) => return Some(refusal),
            None => {}
        }
        others += items.at(place).rows.len();
    }
    None
}

/// The first refusal of a file with monomials, with these goals.
pub(crate) fn first_refusal(file: &File, goals: GoalSet) -> Option<SystemRefusal>
    ensures { result ≡ first (ideal_refusals file.now goals) }
{
    file.kept();
    match items_refusal(&file.items) {
        Some(refusal) => return Some(refusal),
        None => {}
    }
    match goal_fault(stands(Group::Grading, &file.items), goals) {
        Some(fault) => Some(SystemRefusal::Meaning {
            item: 0,
            row: 0,
            fault,
        }),
        None => None,
    }
}
