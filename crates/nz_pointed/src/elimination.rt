// Elimination, row by row.
ghost use Rattle.std.specs.Prelude.{◌≡◌, ◌≢◌, pos, ℕ, ◌+◌, ◌<◌, ◌++◌, ◌∷◌, [], ℤ, List, IfOk, MatchResult, Contains, length, take, get_or};
ghost use Rattle.std.specs.List.{AllByRecursion as Each, AllZip};
ghost use Rattle.nz_spec.specs.Vectors.{dot, HasWidth, IsNonzero};
ghost use Rattle.nz_range.specs.Measures.{SomeLarge, AreLargeFor};
ghost use Rattle.nz_pointed.specs.Elimination.{IsElimination, IsExchange};
ghost use Rattle.nz_linear.specs.Echelon.{EndsAt};
ghost use Rattle.nz_pointed.specs.Pointed.{IsAnswer, AreEquationsWith};

use crate::clearing::{cleared_all, first_nonzero};
use crate::signs::{led, turned};
use crate::starting::{Equations, Pointed, Simplex};
use nz_vec::{NoMemory, Num, Places, Row, Rows, Scalar, is_nonzero, units};
use std::alloc::Global;

/// What elimination holds after some rows: the places of the rows chosen, the vectors of these rows,
/// and the vectors at which all rows so far are 0.
#[derive(Drop)]
pub(crate) struct Elimination<T: Scalar> {
    places: Places,
    chosen: Vec<Row<T>>,
    left: Vec<Row<T>>,
}

impl<T: Scalar> Elimination<T> {
    /// Before any row.
    pub(crate) fn new(alloc: Global, width: usize) -> Result<Elimination<T>, NoMemory>
        ensures { IfOk result (λ e. IsElimination width [] e.places e.chosen.items e.left.items) }
    {
        match units(alloc, width) {
            Ok(left) => Ok(Elimination {
                places: Places::new(alloc),
                chosen: Vec::new(alloc),
                left,
            }),
            Err(refusal) => Err(refusal),
        }
    }

    /// Takes in the row at this place.
    pub(crate) fn absorb(&mut self, alloc: Global, rows: &Rows<T>, place: usize) -> Result<(), Num>
        requires within { place < length rows.now }
        requires widths { Each (HasWidth (length (get_or rows.now place []))) rows.now }
        requires state { IsElimination (length (get_or rows.now place [])) (take place rows.now) self.old.places self.old.chosen.items self.old.left.items }
        ensures { MatchResult result (λ _. IsElimination (length (get_or rows.now place [])) (take (place + 1) rows.now) self.new.places self.new.chosen.items self.new.left.items) (λ e. e ≡ Num.Range → AreLargeFor T.HALF (get_or rows.now place []) (self.old.chosen.items ++ self.old.left.items)) }
    {
        let form = rows.at(place);
        let found = match first_nonzero(form, self.left.as_slice()) {
            Ok(found) => found,
            Err(refusal) => return Err(refusal),
        };
        match found {
            Some(pivot) => self.exchange(alloc, form, place, pivot),
            None => Ok(()),
        }
    }

    // Chooses the row: the vector left at `pivot` becomes its own, and the others are cleared by it.
    fn exchange(
        &mut self,
        alloc: Global,
        form: &Row<T>,
        place: usize,
        pivot: usize,
    ) -> Result<(), Num>
        requires within { pivot < length self.old.left.items }
        requires nonzero { dot form.now (get_or self.old.left.items pivot []) ≢ pos 0 }
        requires left { Each (HasWidth (length form.now)) self.old.left.items }
        requires chosen { Each (HasWidth (length form.now)) self.old.chosen.items }
        ensures { MatchResult result (λ _. (self.new.places ≡ self.old.places ++ place ∷ []) × IsExchange form.now pivot self.old.chosen.items self.old.left.items self.new.chosen.items self.new.left.items) (λ e. e ≡ Num.Range → AreLargeFor T.HALF form.now (self.old.chosen.items ++ self.old.left.items)) }
    {
        let own = match turned(alloc, form, self.left.remove(pivot)) {
            Ok(own) => own,
            Err(refusal) => return Err(refusal),
        };
        let value = match form.dot(&own) {
            Some(value) => value,
            None => return Err(Num::Range),
        };
        self.left = match cleared_all(alloc, form, &own, value, self.left.as_slice()) {
            Ok(left) => left,
            Err(refusal) => return Err(refusal),
        };
        self.chosen = match cleared_all(alloc, form, &own, value, self.chosen.as_slice()) {
            Ok(chosen) => chosen,
            Err(refusal) => return Err(refusal),
        };
        match self.chosen.push(own) {
            Ok(()) => {}
            Err(_) => return Err(Num::NoMemory),
        }
        match self.places.push(place) {
            Ok(()) => Ok(()),
            Err(refusal) => Err(Num::from(refusal)),
        }
    }

    /// What is known after all rows.
    pub(crate) fn answer(self, alloc: Global) -> Result<Pointed<T>, Num>
        requires { Each IsNonzero self.left.items }
        ensures { MatchResult result (λ a. (w : ℕ) (rows : List (List ℤ)) → IsElimination w rows self.places self.chosen.items self.left.items → IsAnswer w rows a) (λ e. e ≡ Num.Range → SomeLarge T.HALF (Contains self.left.items)) }
    {
        if self.left.is_empty() {
            match rows_of(alloc, self.chosen) {
                Ok(rays) => Ok(Pointed::Simplex(Simplex {
                    places: self.places,
                    rays,
                })),
                Err(refusal) => Err(Num::from(refusal)),
            }
        } else {
            match led(alloc, &self.left[0]) {
                Ok(line) => Ok(Pointed::Line(line)),
                Err(refusal) => Err(refusal),
            }
        }
    }

    /// The vectors left, as the equations of all rows.
    pub(crate) fn equations(self, alloc: Global) -> Result<Equations<T>, NoMemory>
        requires { Each IsNonzero self.left.items }
        ensures { IfOk result (λ e. (w : ℕ) (rows : List (List ℤ)) → Each (HasWidth w) rows → IsElimination w rows self.places self.chosen.items self.left.items → AreEquationsWith w rows e.columns e.forms) }
    {
        let columns = match columns_of(alloc, self.left.as_slice()) {
            Ok(columns) => columns,
            Err(refusal) => return Err(refusal),
        };
        match rows_of(alloc, self.left) {
            Ok(forms) => Ok(Equations { columns, forms }),
            Err(refusal) => Err(refusal),
        }
    }
}

// The column of each vector left: that of its last nonzero entry.
fn columns_of<T: Scalar>(alloc: Global, left: &[Row<T>]) -> Result<Places, NoMemory>
    requires { Each IsNonzero left.now }
    ensures { IfOk result (λ c. AllZip (λ x k. EndsAt k x) left.now c) }
{
    let mut columns = Places::new(alloc);
    for place in 0..left.len() {
        match columns.push(last_nonzero(&left[place])) {
            Ok(()) => {}
            Err(refusal) => return Err(refusal),
        }
    }
    Ok(columns)
}

// The column of the last nonzero entry.
fn last_nonzero<T: Scalar>(row: &Row<T>) -> usize
    requires { IsNonzero row.now }
    ensures { EndsAt result row.now }
{
    let mut column = row.len();
    while column > 0 {
        column -= 1;
        if is_nonzero(row.at(column)) {
            return column;
        }
    }
    0
}

fn rows_of<T: Scalar>(alloc: Global, list: Vec<Row<T>>) -> Result<Rows<T>, NoMemory>
    ensures { IfOk result (λ r. r ≡ list.items) }
{
    let mut rows = Rows::new(alloc);
    for row in list {
        match rows.push(row) {
            Ok(()) => {}
            Err(refusal) => return Err(refusal),
        }
    }
    Ok(rows)
}
