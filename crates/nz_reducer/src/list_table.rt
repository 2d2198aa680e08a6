//! The table that is searched from its first entry on.
ghost use Rattle.std.specs.Prelude.{◌≡◌, ◌≤ℤ◌, ℕ, ◌<◌, [], length, slice_index_or, IfOk, MatchBool};
ghost use Rattle.nz_order.specs.Boxes.{IsBelow};

use crate::Table;
use nz_vec::{NoMemory, Row, Rows, Scalar};
use std::alloc::Global;

/// A table that keeps each entry as it is.
#[derive(Drop)]
pub struct ListTable<T: Scalar> {
    columns: usize,
    rows: Rows<T>,
    ghost wide: { (k : ℕ) → k < length rows → length (slice_index_or rows k []) ≡ columns },
}

impl<T: Scalar> ListTable<T> {
    /// The empty table of this width.
    pub fn new(alloc: Global, width: usize) -> Result<ListTable<T>, NoMemory>
        ensures { IfOk result (λ t. (t.columns ≡ width) × (t.rows ≡ [])) }
    {
        Ok(ListTable {
            columns: width,
            rows: Rows::new(alloc),
        })
    }
}

impl<T: Scalar> Table<T> for ListTable<T> {
    ghost columns = { λ t. t.columns };

    ghost listed = { λ t. t.rows };

    fn width(&self) -> usize {
        self.columns
    }

    fn len(&self) -> usize {
        self.rows.len()
    }

    fn put(&mut self, values: &Row<T>) -> Result<(), NoMemory> {
        let copy = values.try_copy()?;
        self.rows.push(copy)
    }

    fn first(&self, values: &Row<T>) -> Option<usize> {
        for place in 0..self.rows.len() {
            if is_below(self.rows.at(place), values) {
                return Some(place);
            }
        }
        None
    }
}

/// Whether each value of the first list is at most that of the second.
fn is_below<T: Scalar>(low: &Row<T>, high: &Row<T>) -> bool
    requires { length low.now ≡ length high.now }
    ensures { MatchBool result (IsBelow low.now high.now) (¬ IsBelow low.now high.now) }
{
    for column in 0..low.len() {
        if is_above(low.at(column), high.at(column)) {
            return false;
        }
    }
    true
}

/// Whether the first value is above the second.
fn is_above<T: Scalar>(a: T, b: T) -> bool
    ensures { MatchBool result (¬ (T.integer a ≤ℤ T.integer b)) (T.integer a ≤ℤ T.integer b) }
{
    a > b
}
