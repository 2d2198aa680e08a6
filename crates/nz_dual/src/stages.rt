ghost use Rattle.std.specs.Prelude.{◌≡◌, ◌∷◌, ◌++◌, [], ◌≤◌, ◌<ℤ◌, pos, length, None, OnOk, OnErr, IfOk, IfErr, MatchResult};
ghost use Rattle.nz_spec.specs.Vectors.{opposite};
ghost use Rattle.nz_range.specs.Measures.{measure};
ghost use Rattle.nz_spec.specs.Covers.{vectors_at};
ghost use Rattle.nz_spec.specs.Order.{IsLexBefore, IsListOf, ListsOnce};
ghost use Rattle.nz_pointed.specs.Pointed.{IsSimplexOf};
ghost use Rattle.nz_dual.specs.DualStages.{IsStage, IsStageList, AreLists, IsElement, IsReversedElement, IsInsertRefusal};
ghost use Rattle.nz_dual.specs.FirstStage.{IsStartRefusal, IsStartWithin};
ghost use Rattle.nz_dual.specs.Sides.{IsEmpty};

use crate::closing::{close, offer_all};
use crate::sides::{Side, work_of};
use crate::starting::first_list;
use nz_degree::sort;
use nz_pointed::{Simplex, opposite};
use nz_vec::{NoMemory, Num, Row, Rows, Scalar, Work};
use std::alloc::Global;
use std::marker::Model;

/// The rows so far, with the irreducibles of the whole vectors at which all of them are at least 0.
#[derive(Drop)]
pub struct Stage<T: Scalar> {
    width: usize,
    rows: Rows<T>,
    list: Rows<T>,
    reversed: Rows<T>,
}

impl<T: Scalar> Model for Stage<T> {
    ghost use Rattle.nz_dual.specs.DualStages.{RowsAndLists, IsStage};

    ghost Value = { RowsAndLists };

    ghost view = { λ s. record { width = s.width; rows = s.rows; list = s.list; reversed = s.reversed } };

    ghost invariant = { λ s. IsStage (record { width = s.width; rows = s.rows; list = s.list; reversed = s.reversed }) };
}

impl<T: Scalar> Stage<T> {
    /// Begins with the rows of a simplex alone, in their order. TooMany comes only where the rays, and
    /// the vectors of the stage that are sums of rays with rational factors of at least 0 and below 1,
    /// are more than the limit. Range comes only where one of these, a floor sum of the rays, a row, a
    /// normal form of the rays, or one of these forms at one of these vectors has a measure above `HALF`.
    pub fn start(
        alloc: Global,
        rows: &Rows<T>,
        simplex: &Simplex<T>,
        limit: u32,
    ) -> Result<Stage<T>, Work>
        requires { IsSimplexOf (length simplex.now.places) rows.now simplex.now.places simplex.now.rays }
        ensures rows { IfOk result (λ s. (s.width ≡ length simplex.now.places) × (s.rows ≡ vectors_at rows.now simplex.now.places)) }
        ensures list { IfOk result (λ s. ListsOnce (IsElement s.width s.rows) s.list) }
        ensures reversed { IfOk result (λ s. s.reversed ≡ []) }
        ensures within { IfOk result (λ s. length s.list ≤ limit) }
        ensures candidates { IfOk result (λ _. IsStartWithin limit (length simplex.now.places) (vectors_at rows.now simplex.now.places) simplex.now.rays) }
        ensures refusal { IfErr result (IsStartRefusal T.HALF limit (length simplex.now.places) (vectors_at rows.now simplex.now.places) simplex.now.rays) }
    {
        let chosen = match rows.at_places(&simplex.places) {
            Ok(chosen) => chosen,
            Err(refusal) => return Err(Work::from(refusal)),
        };
        match first_list(alloc, &chosen, &simplex.rays, limit) {
            Ok(list) => Ok(Stage {
                width: simplex.places.len(),
                rows: chosen,
                list,
                reversed: Rows::new(alloc),
            }),
            Err(refusal) => Err(refusal),
        }
    }

    /// Adds one row. A refusal changes nothing. TooMany comes only where the new stage or the reversed
    /// one, at which the row is at most 0, has more irreducibles than the limit. Range comes only where
    /// one of these, a sum of two of them, the row, or a row at one of these vectors has a measure above
    /// `HALF`, which is the sum of the absolute values of the entries or products.
    pub fn insert(&mut self, alloc: Global, row: &Row<T>, limit: u32) -> Result<(), Work>
        requires { length row.now ≡ self.old.width }
        ensures rows { OnOk result ((self.new.width ≡ self.old.width) × (self.new.rows ≡ self.old.rows ++ row.now ∷ [])) }
        ensures list { OnOk result (ListsOnce (IsElement self.old.width (self.old.rows ++ row.now ∷ [])) self.new.list) }
        ensures reversed { OnOk result (ListsOnce (IsReversedElement self.old.width self.old.rows row.now) self.new.reversed) }
        ensures within { OnOk result ((length self.new.list ≤ limit) × (length self.new.reversed ≤ limit)) }
        ensures err { OnErr result (self.new ≡ self.old) }
        ensures refusal { IfErr result (IsInsertRefusal T.HALF limit self.old.width self.old.rows row.now) }
    {
        let lists = match both_sides(alloc, &self.rows, &self.list, row, limit) {
            Ok(lists) => lists,
            Err(refusal) => return Err(refusal),
        };
        let copy = match row.try_copy() {
            Ok(copy) => copy,
            Err(refusal) => return Err(Work::from(refusal)),
        };
        match self.rows.push(copy) {
            Ok(()) => {
                self.list = lists.list;
                self.reversed = lists.reversed;
                Ok(())
            }
            Err(refusal) => Err(Work::from(refusal)),
        }
    }

    /// The irreducibles of the whole vectors at which all rows so far are at least 0, each once.
    pub fn list(&self) -> &Rows<T>
        ensures value { result.now ≡ self.now.list }
        ensures lists { ListsOnce (IsElement self.now.width self.now.rows) self.now.list }
    {
        &self.list
    }

    /// The same with the last row at most 0 in place of at least 0; none before a row was inserted.
    pub fn reversed(&self) -> &Rows<T>
        ensures { result.now ≡ self.now.reversed }
    {
        &self.reversed
    }

    /// How many rows there are so far.
    pub(crate) fn number(&self) -> usize
        ensures { result ≡ length self.now.rows }
    {
        self.rows.len()
    }

    /// The list alone, lexicographically.
    pub(crate) fn into_sorted(self, alloc: Global) -> Result<Rows<T>, NoMemory>
        ensures size { IfOk result (λ list. length list ≡ length self.list) }
        ensures lists { IfOk result (λ list. IsListOf IsLexBefore (IsElement self.width self.rows) list) }
    {
        let mut list = self.list;
        match sort(alloc, &mut list, no_grading()) {
            Ok(()) => Ok(list),
            Err(_) => Err(NoMemory),
        }
    }
}

/// Vectors are sorted by no degree.
fn no_grading<'a, T: Scalar>() -> Option<&'a Row<T>>
    ensures { result ≡ None }
{
    None
}

/// The list of a stage, and the reversed one.
#[derive(Drop)]
struct Lists<T: Scalar> {
    list: Rows<T>,
    reversed: Rows<T>,
}

/// The lists of the stage with one row more.
fn both_sides<T: Scalar>(
    alloc: Global,
    rows: &Rows<T>,
    list: &Rows<T>,
    row: &Row<T>,
    limit: u32,
) -> Result<Lists<T>, Work>
    requires { IsStageList (length row.now) rows.now list.now }
    ensures { MatchResult result (λ l. AreLists limit (length row.now) rows.now row.now l.list l.reversed) (IsInsertRefusal T.HALF limit (length row.now) rows.now row.now) }
{
    let mut up = match upper(alloc, rows, row) {
        Ok(up) => up,
        Err(refusal) => return Err(Work::from(refusal)),
    };
    let mut down = match lower(alloc, rows, row) {
        Ok(down) => down,
        Err(refusal) => return Err(work_of(refusal)),
    };
    match offer_all(alloc, rows, list, &mut up, &mut down, limit) {
        Ok(()) => {}
        Err(refusal) => return Err(refusal),
    }
    match close(alloc, rows, &mut up, &mut down, limit) {
        Ok(()) => Ok(Lists {
            list: up.elements,
            reversed: down.elements,
        }),
        Err(refusal) => Err(refusal),
    }
}

/// The side of a row, with no elements.
fn upper<T: Scalar>(alloc: Global, rows: &Rows<T>, row: &Row<T>) -> Result<Side<T>, NoMemory>
    ensures { IfOk result (λ s. (s.last ≡ row.now) × IsEmpty rows.now s) }
{
    match row.try_copy() {
        Ok(last) => Side::new(alloc, rows, last),
        Err(refusal) => Err(refusal),
    }
}

/// The side of its opposite, with no elements.
fn lower<T: Scalar>(alloc: Global, rows: &Rows<T>, row: &Row<T>) -> Result<Side<T>, Num>
    ensures { MatchResult result (λ s. (s.last ≡ opposite row.now) × IsEmpty rows.now s) (λ e. e ≡ Num.Range → T.HALF <ℤ pos (measure row.now)) }
{
    let last = match opposite(alloc, row) {
        Ok(last) => last,
        Err(refusal) => return Err(refusal),
    };
    match Side::new(alloc, rows, last) {
        Ok(side) => Ok(side),
        Err(refusal) => Err(Num::from(refusal)),
    }
}
