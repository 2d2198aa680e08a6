//! The vectors found so far, in the order in which they were found.
ghost use Rattle.std.specs.Prelude.{◌≡◌, ◌<◌, [], length, map, slice_index_or, IfOk, OnOk};
ghost use Rattle.std.specs.List.Sorted.{IsPermutation};
ghost use Rattle.nz_classes.specs.Steps.{IsPut, IsNotFalling};

use indexmap::IndexSet;
use nz_vec::{NoMemory, Row, Rows, Scalar};
use std::alloc::Global;
use std::marker::Model;

/// A list of different vectors that finds in one step whether a vector stands in it.
#[derive(Drop)]
pub(crate) struct Found<T: Scalar> {
    vectors: IndexSet<Vec<T>>,
}

impl<T: Scalar> Model for Found<T> {
    ghost use Rattle.std.specs.Prelude.{List, ℤ, map};

    ghost Value = { List (List ℤ) };

    ghost view = { λ f. map (λ v. map T.integer v.items) f.vectors.keys };
}

impl<T: Scalar> Found<T> {
    pub(crate) fn new(alloc: Global) -> Found<T>
        ensures { result ≡ [] }
    {
        Found {
            vectors: IndexSet::new(alloc),
        }
    }

    pub(crate) fn len(&self) -> usize
        ensures { result ≡ length self.now }
    {
        self.vectors.len()
    }

    /// A copy of the vector at this place.
    pub(crate) fn row(&self, alloc: Global, place: usize) -> Result<Row<T>, NoMemory>
        requires { place < length self.now }
        ensures { IfOk result (λ r. r ≡ slice_index_or self.now place []) }
    {
        Row::of(alloc, &self.vectors.as_slice()[place])
    }

    /// Puts the vector after the others, unless it stands there already.
    pub(crate) fn put(&mut self, vector: Row<T>) -> Result<(), NoMemory>
        ensures { OnOk result (IsPut self.old vector self.new) }
    {
        match self.vectors.insert(vector.into_vec()) {
            Ok(_) => {}
            Err(_) => return Err(NoMemory),
        }
        Ok(())
    }

    /// The vectors in lexicographic order.
    pub(crate) fn in_order(mut self, alloc: Global) -> Result<Rows<T>, NoMemory>
        ensures permutation { IfOk result (IsPermutation self) }
        ensures order { IfOk result IsNotFalling }
    {
        match self.vectors.sort() {
            Ok(()) => {}
            Err(_) => return Err(NoMemory),
        }
        rows_of(alloc, self.vectors.as_slice())
    }
}

/// The rows of these entries.
fn rows_of<T: Scalar>(alloc: Global, list: &[Vec<T>]) -> Result<Rows<T>, NoMemory>
    ensures { IfOk result (λ rows. rows ≡ map (λ v. map T.integer v.items) list.now) }
{
    let mut rows = Rows::new(alloc);
    for entries in list {
        let row = Row::of(alloc, entries)?;
        rows.push(row)?;
    }
    Ok(rows)
}
