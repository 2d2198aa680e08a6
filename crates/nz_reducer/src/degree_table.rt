//! The table that is searched in the order of the sums of its entries.
ghost use Rattle.std.specs.Prelude.{◌≡◌, [], ◌∷◌, ◌++◌, length, map, IfOk, OnOk, OnErr, MatchBool, MatchOption};
ghost use Rattle.std.specs.Rc.{rc_slice_items};
ghost use Rattle.nz_reducer.specs.Tables.{NoneIsBelow, IsFirstBelow, HasAnyBelow, HasSum, IsNumberCompared, HasBelow};

use crate::Table;
use crate::levels::{Level, levels_for, word_of};
use crate::marks::{Mark, is_one_under, position, reach, search, without_sum};
use crate::recent::Recent;
use crate::sums::sum_of;
use nz_vec::{NoMemory, Row, Scalar};
use std::alloc::Global;
use std::marker::Model;
use std::rc::RcSlice;

/// A table that knows its entries by the sums of their values. What is at most given values has no
/// larger sum than they have, so a search compares no entry with a larger one. `first` compares every
/// entry without a sum in the type, and every entry where the given values have none; the quick
/// searches pass over what a word of levels rules out.
#[derive(Drop)]
pub struct DegreeTable<T: Scalar> {
    columns: usize,
    entries: Vec<RcSlice<T>>,
    marks: Vec<Mark<T>>,
    levels: Vec<Level<T>>,
    recent: Recent,
}

impl<T: Scalar> Model for DegreeTable<T> {
    ghost use Rattle.std.specs.Prelude.{map};
    ghost use Rattle.std.specs.Rc.{rc_slice_items};
    ghost use Rattle.std.specs.List.{AllByRecursion as Each};
    ghost use Rattle.nz_spec.specs.Vectors.{HasWidth};
    ghost use Rattle.nz_reducer.specs.Tables.{TableLists};
    ghost use Rattle.nz_reducer.specs.Levels.{AreLevels};
    ghost use Rattle.nz_reducer.specs.Marks.{AreMarks, HaveWords};

    ghost Value = { TableLists };

    ghost view = { λ t. record { columns = t.columns; rows = map (λ e. map T.integer (rc_slice_items e)) t.entries.items } };

    ghost invariant = { λ t. Each (HasWidth t.columns) (map (λ e. map T.integer (rc_slice_items e)) t.entries.items) × AreMarks T.integer T.fits (λ m. m.sum) (λ m. m.place) (map (λ e. map T.integer (rc_slice_items e)) t.entries.items) t.marks.items × AreLevels (λ l. l.column) t.columns t.levels.items × HaveWords (λ l. l.column) (λ l. T.integer l.value) t.levels.items (λ m. m.place) (λ m. m.word) (map (λ e. map T.integer (rc_slice_items e)) t.entries.items) t.marks.items };
}

impl<T: Scalar> DegreeTable<T> {
    /// The empty table of this width.
    pub fn new(alloc: Global, width: usize) -> Result<DegreeTable<T>, NoMemory>
        ensures { IfOk result (λ t. (t.columns ≡ width) × (t.rows ≡ [])) }
    {
        Ok(DegreeTable {
            columns: width,
            entries: Vec::new(alloc),
            marks: Vec::new(alloc),
            levels: levels_for(alloc, width)?,
            recent: Recent::new(),
        })
    }

    /// Appends the values of the slice, which the table then shares.
    pub fn put_shared(&mut self, values: &RcSlice<T>) -> Result<(), NoMemory>
        requires { length (rc_slice_items values.now) ≡ self.old.columns }
        ensures width { self.new.columns ≡ self.old.columns }
        ensures ok { OnOk result (self.new.rows ≡ self.old.rows ++ map T.integer (rc_slice_items values.now) ∷ []) }
        ensures err { OnErr result (self.new.rows ≡ self.old.rows) }
    {
        let row = match Row::of(*self.entries.allocator(), values.as_slice()) {
            Ok(row) => row,
            Err(refusal) => return Err(refusal),
        };
        let sum = sum_of(&row);
        let word = word_of(self.levels.as_slice(), &row);
        let index = position(self.marks.as_slice(), sum);
        let shared = match values.clone() {
            Ok(shared) => shared,
            Err(_) => return Err(NoMemory),
        };
        match self.entries.reserve(1) {
            Ok(()) => {}
            Err(_) => return Err(NoMemory),
        }
        let place = self.entries.len();
        match self.marks.insert(index, Mark { sum, place, word }) {
            Ok(()) => {}
            Err(_) => return Err(NoMemory),
        }
        self.entries.push_reserved(shared);
        self.recent.shift(index);
        Ok(())
    }

    /// The answer of `first`, and how many entries were compared. Where the values have a sum in the
    /// type, these are no more than the entries whose sum is at most it and those without a sum, and
    /// exactly so many where there is no answer.
    pub fn first_counted(&self, values: &Row<T>) -> (Option<usize>, usize)
        requires { length values.now ≡ self.now.columns }
        ensures first { MatchOption result.0 (NoneIsBelow self.now.rows values.now) (IsFirstBelow self.now.rows values.now) }
        ensures compared { HasSum T.fits values.now → IsNumberCompared T.fits self.now.rows values.now result.0 result.1 }
    {
        let reached = reach(self.marks.as_slice(), sum_of(values));
        let (first, compared) = search(self.entries.as_slice(), &self.marks[..reached], values);
        if first < self.entries.len() {
            (Some(first), compared)
        } else {
            (None, compared)
        }
    }

    /// Whether an entry is at most the values in every column. Unlike `first` this ends at the first
    /// one that is.
    pub fn has_any_below(&mut self, values: &Row<T>) -> bool
        requires { length values.now ≡ self.old.columns }
        ensures same { self.new ≡ self.old }
        ensures answer { MatchBool result (HasAnyBelow self.old.rows values.now) (NoneIsBelow self.old.rows values.now) }
    {
        let reached = reach(self.marks.as_slice(), sum_of(values));
        let word = word_of(self.levels.as_slice(), values);
        is_one_under(
            self.entries.as_slice(),
            &self.marks[..reached],
            &mut self.recent,
            values,
            word,
        )
    }

    /// Whether an entry whose sum is a value of the type, and at most the given one, is at most the
    /// values in every column.
    pub fn has_below(&mut self, values: &Row<T>, most: T) -> bool
        requires { length values.now ≡ self.old.columns }
        ensures same { self.new ≡ self.old }
        ensures answer { MatchBool result (HasBelow T.fits self.old.rows values.now (T.integer most)) (¬ HasBelow T.fits self.old.rows values.now (T.integer most)) }
    {
        let reached = reach(self.marks.as_slice(), Some(most));
        let found = &self.marks[..reached];
        let summed = without_sum(found);
        let word = word_of(self.levels.as_slice(), values);
        is_one_under(
            self.entries.as_slice(),
            &found[summed..],
            &mut self.recent,
            values,
            word,
        )
    }
}

impl<T: Scalar> Table<T> for DegreeTable<T> {
    ghost columns = { λ t. t.columns };

    ghost listed = { λ t. t.rows };

    fn width(&self) -> usize {
        self.columns
    }

    fn len(&self) -> usize {
        self.entries.len()
    }

    fn put(&mut self, values: &Row<T>) -> Result<(), NoMemory> {
        let copy = values.try_copy()?;
        match RcSlice::from_vec(copy.into_vec()) {
            Ok(slice) => self.put_shared(&slice),
            Err(_) => Err(NoMemory),
        }
    }

    fn first(&self, values: &Row<T>) -> Option<usize> {
        self.first_counted(values).0
    }
}
