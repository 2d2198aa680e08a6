// One side of a new row.
ghost use Rattle.std.specs.Rc.{rc_slice_items};
ghost use Rattle.std.specs.Prelude.{◌≡◌, ◌∷◌, ◌++◌, [], pos, map, ◌<◌, ◌≤◌, ◌^◌, length, take, slice_index, slice_index_or, Contains, IfOk, MatchBool, MatchResult};
ghost use Rattle.std.specs.List.{AllByRecursion as Each};
ghost use Rattle.nz_spec.specs.Vectors.{dot, values_at, HasWidth};
ghost use Rattle.nz_range.specs.Measures.{measure};
ghost use Rattle.nz_reducer.specs.Tables.{NoneIsBelow, HasAnyBelow};
ghost use Rattle.nz_dual.specs.DegreeClasses.{IsEnd};
ghost use Rattle.nz_dual.specs.Sides.{IsEmpty, IsSide, IsSideElement, IsNoted, IsWorkOf, Keeps, Handles, HasGrown, IsOfferRefusal};

use crate::classes::DegreeClasses;
use crate::levels::shared;
use crate::values::{size_of, values_before};
use nz_reducer::DegreeTable;
use nz_vec::{NoMemory, Num, Row, Rows, Scalar, Work, is_negative, is_positive};
use std::alloc::Global;
use std::marker::Model;
use std::rc::RcSlice;

/// The vectors at which the rows so far and one more form are at least 0, as far as their
/// irreducibles are known. Of two sides the further forms are the new row and its opposite.
#[derive(Drop)]
pub(crate) struct Side<T: Scalar> {
    pub(crate) last: Row<T>,
    pub(crate) elements: Rows<T>,
    /// The values of the forms at the elements.
    pub(crate) table: DegreeTable<T>,
    /// The elements at which the last form is positive.
    pub(crate) rising: Rows<T>,
    /// The values of the forms at these.
    pub(crate) rising_values: Rows<T>,
    /// The degrees of these, in classes: the sums of the values of the rows so far.
    pub(crate) degrees: DegreeClasses,
}

impl<T: Scalar> Model for Side<T> {
    ghost use Rattle.nz_dual.specs.Sides.{SideLists};

    ghost Value = { SideLists };

    ghost view = { λ s. record { last = s.last; elements = s.elements; columns = s.table.columns; values = s.table.rows; rising = s.rising; rising_values = s.rising_values; degrees = s.degrees.degrees; classes = s.degrees.classes } };
}

impl<T: Scalar> Side<T> {
    /// The side of this form, with no elements.
    pub(crate) fn new(alloc: Global, rows: &Rows<T>, last: Row<T>) -> Result<Side<T>, NoMemory>
        ensures { IfOk result (λ s. (s.last ≡ last) × IsEmpty rows.now s) }
    {
        let columns = match rows.len().checked_add(1) {
            Some(columns) => columns,
            None => return Err(NoMemory),
        };
        let table = match DegreeTable::new(alloc, columns) {
            Ok(table) => table,
            Err(refusal) => return Err(refusal),
        };
        Ok(Side {
            last,
            elements: Rows::new(alloc),
            table,
            rising: Rows::new(alloc),
            rising_values: Rows::new(alloc),
            degrees: DegreeClasses::new(alloc),
        })
    }

    /// Keeps a vector where the last form is at least 0 at it and no element reduces it.
    pub(crate) fn offer(
        &mut self,
        alloc: Global,
        rows: &Rows<T>,
        x: &Row<T>,
        limit: u32,
    ) -> Result<(), Work>
        requires rows_wide { Each (HasWidth (length self.old.last)) rows.now }
        requires width { length x.now ≡ length self.old.last }
        requires side { IsSide limit rows.now self.old }
        requires keeps { Keeps rows.now self.old.last self.old.elements x.now }
        ensures { MatchResult result (λ _. HasGrown limit rows.now self.old self.new × Handles rows.now self.old.last self.new.elements x.now) (IsOfferRefusal T.HALF limit rows.now self.old.last (λ v. v ≡ x.now)) }
    {
        let height = match self.last.dot(x) {
            Some(height) => height,
            None => return Err(Work::Range { told: 0 }),
        };
        if is_negative(height) {
            return Ok(());
        }
        let values = match values_before(alloc, rows, x, height) {
            Ok(values) => values,
            Err(refusal) => return Err(work_of(refusal)),
        };
        if self.has_below(&values) {
            return Ok(());
        }
        self.keep_alone(rows, x, &values, limit)
    }

    /// The same of a vector at which the last form is 0, with its values, which the table then shares.
    pub(crate) fn offer_level(
        &mut self,
        rows: &Rows<T>,
        x: &Row<T>,
        values: &Row<T>,
        slice: &RcSlice<T>,
        limit: u32,
    ) -> Result<(), Work>
        requires rows_wide { Each (HasWidth (length self.old.last)) rows.now }
        requires width { length x.now ≡ length self.old.last }
        requires side { IsSide limit rows.now self.old }
        requires keeps { Keeps rows.now self.old.last self.old.elements x.now }
        requires level { dot self.old.last x.now ≡ pos 0 }
        requires values { values.now ≡ values_at rows.now x.now ++ pos 0 ∷ [] }
        requires slice { map T.integer (rc_slice_items slice.now) ≡ values.now }
        ensures { MatchResult result (λ _. HasGrown limit rows.now self.old self.new × Handles rows.now self.old.last self.new.elements x.now) (IsOfferRefusal T.HALF limit rows.now self.old.last (λ v. v ≡ x.now)) }
    {
        if self.has_below(values) {
            return Ok(());
        }
        self.keep(rows, x, values, slice, limit)
    }

    /// Keeps a vector with these values, which no other side holds.
    fn keep_alone(
        &mut self,
        rows: &Rows<T>,
        x: &Row<T>,
        values: &Row<T>,
        limit: u32,
    ) -> Result<(), Work>
        requires rows_wide { Each (HasWidth (length self.old.last)) rows.now }
        requires side { IsSide limit rows.now self.old }
        requires values { values.now ≡ values_at (rows.now ++ self.old.last ∷ []) x.now }
        requires new { NoneIsBelow self.old.values values.now }
        requires irreducible { IsSideElement rows.now self.old.last x.now }
        ensures { MatchResult result (λ _. IsSide limit rows.now self.new × (self.new.last ≡ self.old.last) × (self.new.elements ≡ self.old.elements ++ x.now ∷ [])) (IsOfferRefusal T.HALF limit rows.now self.old.last (λ v. v ≡ x.now)) }
    {
        match shared(values) {
            Ok(slice) => self.keep(rows, x, values, &slice, limit),
            Err(refusal) => Err(Work::from(refusal)),
        }
    }

    /// Keeps a vector with these values.
    fn keep(
        &mut self,
        rows: &Rows<T>,
        x: &Row<T>,
        values: &Row<T>,
        slice: &RcSlice<T>,
        limit: u32,
    ) -> Result<(), Work>
        requires slice { map T.integer (rc_slice_items slice.now) ≡ values.now }
        requires rows_wide { Each (HasWidth (length self.old.last)) rows.now }
        requires side { IsSide limit rows.now self.old }
        requires values { values.now ≡ values_at (rows.now ++ self.old.last ∷ []) x.now }
        requires new { NoneIsBelow self.old.values values.now }
        requires irreducible { IsSideElement rows.now self.old.last x.now }
        ensures { MatchResult result (λ _. IsSide limit rows.now self.new × (self.new.last ≡ self.old.last) × (self.new.elements ≡ self.old.elements ++ x.now ∷ [])) (IsOfferRefusal T.HALF limit rows.now self.old.last (λ v. v ≡ x.now)) }
    {
        match self.note_rising(rows.len(), x, values) {
            Ok(()) => {}
            Err(refusal) => return Err(work_of(refusal)),
        }
        match self.table.put_shared(slice) {
            Ok(()) => {}
            Err(refusal) => return Err(Work::from(refusal)),
        }
        let copy = match x.try_copy() {
            Ok(copy) => copy,
            Err(refusal) => return Err(Work::from(refusal)),
        };
        match self.elements.push(copy) {
            Ok(()) => {}
            Err(refusal) => return Err(Work::from(refusal)),
        }
        within(self.elements.len(), limit)
    }

    /// An element at which the last form is positive.
    pub(crate) fn rising_at(&self, place: usize) -> &Row<T>
        requires { place < length self.now.rising }
        ensures { result.now ≡ slice_index_or self.now.rising place [] }
    {
        self.rising.at(place)
    }

    /// The values of the forms at a rising element.
    pub(crate) fn rising_values_at(&self, place: usize) -> &Row<T>
        requires { place < length self.now.rising_values }
        ensures { result.now ≡ slice_index_or self.now.rising_values place [] }
    {
        self.rising_values.at(place)
    }

    /// The different degrees of the rising elements.
    pub(crate) fn classes(&self) -> &[u128]
        ensures value { result.now ≡ self.now.classes }
        ensures all { Each (Contains self.now.classes) self.now.degrees }
        ensures small { Each (λ d. d < 2 ^ 127) self.now.classes }
    {
        self.degrees.classes()
    }

    /// How many different degrees the rising elements have.
    pub(crate) fn class_count(&self) -> usize
        ensures count { result ≡ length self.now.classes }
        ensures all { Each (Contains self.now.classes) self.now.degrees }
    {
        self.degrees.classes().len()
    }

    /// The degree of a class.
    pub(crate) fn class_degree(&self, class: usize) -> u128
        requires { class < length self.now.classes }
        ensures value { result ≡ slice_index self.now.classes class }
        ensures small { result < 2 ^ 127 }
    {
        self.degrees.classes()[class]
    }

    /// Behind the last rising element of a class, or 0.
    pub(crate) fn end_of(&self, class: usize) -> usize
        requires { class < length self.now.classes }
        ensures { IsEnd self.now.degrees (slice_index self.now.classes class) (length self.now.degrees) result }
    {
        self.degrees.end_of(class)
    }

    /// Behind the rising element before one in its class, or 0.
    pub(crate) fn end_before(&self, place: usize) -> usize
        requires { place < length self.now.degrees }
        ensures { IsEnd self.now.degrees (slice_index self.now.degrees place) place result }
    {
        self.degrees.end_before(place)
    }

    /// Whether an element has at most these values.
    pub(crate) fn has_below(&mut self, values: &Row<T>) -> bool
        requires { length values.now ≡ self.old.columns }
        ensures same { self.new ≡ self.old }
        ensures answer { MatchBool result (HasAnyBelow self.old.values values.now) (NoneIsBelow self.old.values values.now) }
    {
        self.table.has_any_below(values)
    }

    /// Lists a vector with its values and its degree, where the last of its values is positive.
    fn note_rising(&mut self, count: usize, x: &Row<T>, values: &Row<T>) -> Result<(), Num>
        requires { count < length values.now }
        ensures { MatchResult result (λ _. IsNoted count x.now values.now self.old self.new) (λ e. e ≡ Num.Range → (2 ^ 127 ≤ measure (take count values.now)) × (count < 2 ^ 64)) }
    {
        if !is_positive(values.at(count)) {
            return Ok(());
        }
        let degree = match size_of(values, count) {
            Some(degree) => degree,
            None => return Err(Num::Range),
        };
        let copy = match x.try_copy() {
            Ok(copy) => copy,
            Err(refusal) => return Err(Num::from(refusal)),
        };
        match self.rising.push(copy) {
            Ok(()) => {}
            Err(refusal) => return Err(Num::from(refusal)),
        }
        let values_copy = match values.try_copy() {
            Ok(copy) => copy,
            Err(refusal) => return Err(Num::from(refusal)),
        };
        match self.rising_values.push(values_copy) {
            Ok(()) => {}
            Err(refusal) => return Err(Num::from(refusal)),
        }
        match self.degrees.push(degree) {
            Ok(()) => Ok(()),
            Err(refusal) => Err(Num::from(refusal)),
        }
    }
}

/// Whether this many are not more than the limit.
pub(crate) fn within(count: usize, limit: u32) -> Result<(), Work>
    ensures { MatchResult result (λ _. count ≤ limit) (λ e. (e ≡ Work.TooMany) × (limit < count)) }
{
    if count > limit as usize {
        Err(Work::TooMany)
    } else {
        Ok(())
    }
}

/// The refusal of one reckoning as that of an insertion, which tells no stages.
pub(crate) fn work_of(refusal: Num) -> Work
    ensures { IsWorkOf refusal result }
{
    match refusal {
        Num::Range => Work::Range { told: 0 },
        Num::NoMemory => Work::NoMemory,
    }
}
