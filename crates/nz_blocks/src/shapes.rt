//! Whether a draft has the shapes of an outcome.
ghost use Rattle.std.specs.Prelude.{◌≡◌, ◌&&◌, IsTrue};
ghost use Rattle.std.specs.Bool.{MatchBool};
ghost use Rattle.std.specs.List.{AllByRecursion as Each};
ghost use Rattle.nz_spec.specs.Vectors.{HasWidth};
ghost use Rattle.nz_blocks.specs.Outcomes.{AreRows, IsDivisor, row_width, width_at};
ghost use Rattle.nz_blocks.specs.Shapes.{GoTogether, IsShaped, row_lists};

use crate::draft::Draft;
use nz_vec::Rows;

fn rows_fit(rows: &Rows<i128>, width: usize) -> bool
    ensures { MatchBool result (Each (HasWidth width) rows.now) (¬ Each (HasWidth width) rows.now) }
{
    for index in 0..rows.len() {
        if rows.at(index).len() != width {
            return false;
        }
    }
    true
}

fn list_fits(rows: &Option<Rows<i128>>, width: usize) -> bool
    ensures { MatchBool result (AreRows width rows.now) (¬ AreRows width rows.now) }
{
    match rows {
        Some(rows) => rows_fit(rows, width),
        None => true,
    }
}

// How many entries a row has.
fn width_of(amb: u32, level: bool) -> usize
    ensures { result ≡ width_at amb level }
{
    if level {
        amb as usize + 1
    } else {
        amb as usize
    }
}

// Whether all rows have as many entries as they are to have.
fn lists_fit(draft: &Draft) -> bool
    ensures { MatchBool result (Each (AreRows (row_width draft.now)) (row_lists draft.now)) (¬ Each (AreRows (row_width draft.now)) (row_lists draft.now)) }
{
    let width = width_of(draft.amb, draft.level);
    if !list_fits(&draft.modules, width) {
        return false;
    }
    if !list_fits(&draft.hilbert, width) {
        return false;
    }
    if !list_fits(&draft.degree_one, width) {
        return false;
    }
    if !list_fits(&draft.vertices, width) {
        return false;
    }
    if !list_fits(&draft.rays, width) {
        return false;
    }
    if !list_fits(&draft.support, width) {
        return false;
    }
    if !list_fits(&draft.equations, width) {
        return false;
    }
    if !list_fits(&draft.generators, width) {
        return false;
    }
    true
}

fn is_same(a: bool, b: bool) -> bool
    ensures { MatchBool result (a ≡ b) (¬ (a ≡ b)) }
{
    a == b
}

fn both(a: bool, b: bool) -> bool
    ensures { result ≡ a && b }
{
    a && b
}

fn follows(a: bool, b: bool) -> bool
    ensures { MatchBool result (IsTrue a → IsTrue b) (¬ (IsTrue a → IsTrue b)) }
{
    if a { b } else { true }
}

// Whether the lists are those that go together.
fn go_together(draft: &Draft) -> bool
    ensures { MatchBool result (GoTogether draft.now) (¬ GoTogether draft.now) }
{
    if !is_same(draft.equations.is_some(), draft.support.is_some()) {
        return false;
    }
    if !is_same(draft.simplices.is_some(), draft.generators.is_some()) {
        return false;
    }
    let bounded = both(draft.rays.is_some(), draft.level);
    if !is_same(draft.vertices.is_some(), bounded) {
        return false;
    }
    if !follows(draft.modules.is_some(), draft.level) {
        return false;
    }
    if !follows(draft.degree_one.is_some(), draft.denominator.is_some()) {
        return false;
    }
    if !follows(draft.asked.is_some(), draft.hilbert.is_some()) {
        return false;
    }
    let parted = both(draft.asked.is_some(), draft.level);
    follows(parted, draft.modules.is_some())
}

// Whether degrees are divided by 1 or more, where they are.
fn divisor_fits(denominator: Option<i128>) -> bool
    ensures { MatchBool result (IsDivisor denominator) (¬ IsDivisor denominator) }
{
    match denominator {
        Some(denominator) => denominator >= 1,
        None => true,
    }
}

/// Whether the number of entries, the denominator, the rows and the lists are those of an outcome.
pub fn is_shaped(draft: &Draft) -> bool
    ensures { MatchBool result (IsShaped draft.now) (¬ IsShaped draft.now) }
{
    if draft.amb < 1 {
        return false;
    }
    if draft.amb > 64 {
        return false;
    }
    if !divisor_fits(draft.denominator) {
        return false;
    }
    if !lists_fit(draft) {
        return false;
    }
    go_together(draft)
}
