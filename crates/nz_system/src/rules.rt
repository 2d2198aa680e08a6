//! The rules of meaning.
ghost use Rattle.std.specs.Prelude.{◌≡◌, ◌<◌, ◌≤◌, ◌+◌, [], length, take, slice_get, Some, List};
ghost use Rattle.std.specs.List.{AllByRecursion as Each};
ghost use Rattle.nz_spec.specs.Vectors.{Vector};
ghost use Rattle.std.specs.Prelude.{pos, int_lt};
ghost use Rattle.nz_input.specs.Files.{IsFile, ItemData};
ghost use Rattle.nz_system.specs.Contributions.{last};
ghost use Rattle.nz_system.specs.Groups.{occurs};
ghost use Rattle.nz_system.specs.Rules.{first, is_sign, has_low_modulus, are_signs, has_no_sign, has_low_denominator, row_faults, rows_refusals, is_repeated, is_mixed, item_faults, item_refusals, items_refusals, count_rows, goal_faults, refusals, forbids_lattice};

use crate::asked::GoalSet;
use crate::contribution::number;
use crate::groups::{Group, either_stands, occurs, stands};
use crate::refusal::{MeaningFault, SystemRefusal};
use nz_input::{File, Items, Kind};
use nz_vec::{Row, Rows};

fn ends_below_one(row: &Row<i64>) -> bool
    requires { 0 < length row.now }
    ensures { result ≡ int_lt (last row.now) (pos 1) }
{
    number(row, row.len() - 1) < 1
}

fn has_low_modulus(kind: Kind, row: &Row<i64>) -> bool
    requires { 0 < length row.now }
    ensures { result ≡ has_low_modulus kind row.now }
{
    match kind {
        Kind::Congruences | Kind::InhomCongruences => ends_below_one(row),
        _ => false,
    }
}

fn is_sign(entry: i128) -> bool
    ensures { result ≡ is_sign entry }
{
    -1 <= entry && entry <= 1
}

fn are_signs(row: &Row<i64>) -> bool
    ensures { result ≡ are_signs row.now }
{
    for place in 0..row.len() {
        if !is_sign(number(row, place)) {
            return false;
        }
    }
    true
}

fn has_no_sign(kind: Kind, row: &Row<i64>) -> bool
    ensures { result ≡ has_no_sign kind row.now }
{
    match kind {
        Kind::Signs | Kind::StrictSigns => !are_signs(row),
        _ => false,
    }
}

fn has_low_denominator(kind: Kind, row: &Row<i64>) -> bool
    requires { 0 < length row.now }
    ensures { result ≡ has_low_denominator kind row.now }
{
    match kind {
        Kind::Vertices => ends_below_one(row),
        _ => false,
    }
}

// The first fault of a row, up to which so many rows stand in the file.
fn row_fault(kind: Kind, count: usize, row: &Row<i64>) -> Option<MeaningFault>
    requires { 0 < length row.now }
    ensures { result ≡ first (row_faults kind count row.now) }
{
    if count > 1024 {
        Some(MeaningFault::RowLimit)
    } else if has_low_modulus(kind, row) {
        Some(MeaningFault::Modulus)
    } else if has_no_sign(kind, row) {
        Some(MeaningFault::Sign)
    } else if has_low_denominator(kind, row) {
        Some(MeaningFault::Denominator)
    } else {
        None
    }
}

fn rows_refusal(kind: Kind, item: u64, others: usize, rows: &Rows<i64>) -> Option<SystemRefusal>
    requires few { length rows.now ≤ 1024 }
    requires few_others { others ≤ 1024 }
    requires entries { Each (λ (r : Vector). 0 < length r) rows.now }
    ensures { result ≡ first (rows_refusals kind item 0 others rows.now) }
{
    for place in 0..rows.len() {
        match row_fault(kind, others + (place + 1), rows.at(place)) {
            Some(fault) => return Some(SystemRefusal::Meaning {
                item,
                row: place as u32 + 1,
                fault,
            }),
            None => {}
        }
    }
    None
}

fn is_repeated(kind: Kind, items: &Items, before: usize) -> bool
    requires { before ≤ length items.now }
    ensures { result ≡ is_repeated (take before items.now) kind }
{
    match kind {
        Kind::Signs => occurs(Group::Signs, items, before),
        Kind::StrictSigns => occurs(Group::StrictSigns, items, before),
        Kind::Grading => occurs(Group::Grading, items, before),
        _ => false,
    }
}

fn is_mixed(forbidden: bool, kind: Kind) -> bool
    ensures { result ≡ is_mixed forbidden kind }
{
    match kind {
        Kind::ConeAndLattice => forbidden,
        Kind::MonomialIdeal => true,
        _ => false,
    }
}

// The first fault of an item as a whole.
fn item_fault(forbidden: bool, kind: Kind, items: &Items, before: usize) -> Option<MeaningFault>
    requires { before ≤ length items.now }
    ensures { result ≡ first (item_faults forbidden (take before items.now) kind) }
{
    if is_repeated(kind, items, before) {
        Some(MeaningFault::Repeated)
    } else if is_mixed(forbidden, kind) {
        Some(MeaningFault::Mixed)
    } else {
        None
    }
}

fn goal_fault(level: bool, graded: bool, goals: GoalSet) -> Option<MeaningFault>
    ensures { (items : List ItemData) → level ≡ occurs Group.Leveled items → graded ≡ occurs Group.Grading items → result ≡ first (goal_faults items goals) }
{
    if goals.degree_one && !graded {
        Some(MeaningFault::NoGrading)
    } else if (goals.modules || goals.lattice_points) && !level {
        Some(MeaningFault::NoLevel)
    } else {
        None
    }
}

// The first refusal for the item at a place: as a whole, and then row by row.
fn item_refusal(
    forbidden: bool,
    items: &Items,
    place: usize,
    number: u64,
    others: usize,
) -> Option<SystemRefusal>
    requires within { place < length items.now }
    requires number { number ≡ place + 1 }
    requires few { Each (λ (item : ItemData). length item.rows ≤ 1024) items.now }
    requires entries { Each (λ (item : ItemData). Each (λ (r : Vector). 0 < length r) item.rows) items.now }
    requires few_others { others ≤ 1024 }
    requires others { others ≡ count_rows (take place items.now) }
    ensures { (item : ItemData) → slice_get items.now place ≡ Some item → result ≡ first (item_refusals forbidden (take place items.now) item) }
{
    let item = items.at(place);
    match item_fault(forbidden, item.kind, items, place) {
        Some(fault) => Some(SystemRefusal::Meaning {
            item: number,
            row: 0,
            fault,
        }),
        None => rows_refusal(item.kind, number, others, &item.rows),
    }
}

// The first refusal for the items.
fn items_refusal(forbidden: bool, items: &Items) -> Option<SystemRefusal>
    requires few { Each (λ (item : ItemData). length item.rows ≤ 1024) items.now }
    requires entries { Each (λ (item : ItemData). Each (λ (r : Vector). 0 < length r) item.rows) items.now }
    ensures { result ≡ first (items_refusals forbidden [] items.now) }
{
    let mut others = 0;
    for place in 0..items.len() {
        match item_refusal(forbidden, items, place, place as u64 + 1, others) {
            Some(refusal) => return Some(refusal),
            None => {}
        }
        others += items.at(place).rows.len();
    }
    None
}

/// The first refusal of the file, with these goals.
pub(crate) fn first_refusal(file: &File, goals: GoalSet) -> Option<SystemRefusal>
    ensures { result ≡ first (refusals file.now goals) }
{
    file.kept();
    let forbidden = either_stands(Group::Leveled, Group::Cone, &file.items);
    match items_refusal(forbidden, &file.items) {
        Some(refusal) => return Some(refusal),
        None => {}
    }
    let level = stands(Group::Leveled, &file.items);
    let graded = stands(Group::Grading, &file.items);
    match goal_fault(level, graded, goals) {
        Some(fault) => Some(SystemRefusal::Meaning {
            item: 0,
            row: 0,
            fault,
        }),
        None => None,
    }
}
