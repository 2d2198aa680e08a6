ghost use Rattle.std.specs.Prelude.{◌≡◌, ◌≢◌, ℕ, ◌<◌, ◌++◌, ◌∷◌, [], length, get_or, IfOk, IfErr, OnOk, OnErr};
ghost use Rattle.nz_spec.specs.Order.{IsListOf};
ghost use Rattle.nz_spec.specs.Covers.{vectors_at};
ghost use Rattle.nz_pointed.specs.Pointed.{IsSimplexOf};
ghost use Rattle.nz_rays.specs.Descriptions.{AreZeros, IsDescription, ListsRays};
ghost use Rattle.nz_rays.specs.Measures.{HasLargeRay};

use crate::cutting::cut;
use crate::zero_sets::all_but;
use nz_pointed::Simplex;
use nz_vec::{NoMemory, Num, PlaceLists, Places, Row, Rows, Scalar};
use std::alloc::Global;
use std::marker::Model;

/// The cone where all rows so far are at least 0, by its rows and by its extreme rays: a double
/// description (Motzkin and others, 1953). Each ray knows the rows that are 0 at it, from which
/// adjacent rays are told without arithmetic.
#[derive(Drop)]
pub struct Double<T: Scalar> {
    width: usize,
    rows: Rows<T>,
    rays: Rows<T>,
    zeros: PlaceLists,
}

impl<T: Scalar> Model for Double<T> {
    ghost use Rattle.nz_rays.specs.Descriptions.{RowsAndRays, IsDouble};

    ghost Value = { RowsAndRays };

    ghost view = { λ d. record { width = d.width; rows = d.rows; rays = d.rays } };

    ghost invariant = { λ d. IsDouble (record { width = d.width; rows = d.rows; rays = d.rays }) d.zeros };
}

impl<T: Scalar> Double<T> {
    /// Begins with the rows of a simplex, in its order, and its rays. Nothing is reckoned.
    pub fn new(alloc: Global, rows: &Rows<T>, simplex: &Simplex<T>) -> Result<Double<T>, Num>
        requires { IsSimplexOf (length simplex.now.places) rows.now simplex.now.places simplex.now.rays }
        ensures rows { IfOk result (λ d. (d.width ≡ length simplex.now.places) × (d.rows ≡ vectors_at rows.now simplex.now.places)) }
        ensures rays { IfOk result (λ d. ListsRays d) }
        ensures err { IfErr result (λ e. e ≡ Num.NoMemory) }
    {
        match started(alloc, rows, simplex) {
            Ok(double) => Ok(double),
            Err(refusal) => Err(Num::from(refusal)),
        }
    }

    /// Adds one row. A refusal changes nothing. Range comes only where a ray so far has a measure above
    /// HALF, which is the sum of the absolute values of its entries, or the row at such a ray has one,
    /// which is that of the products.
    pub fn add(&mut self, alloc: Global, row: &Row<T>) -> Result<(), Num>
        requires { length row.now ≡ self.old.width }
        ensures rows { OnOk result ((self.new.width ≡ self.old.width) × (self.new.rows ≡ self.old.rows ++ row.now ∷ [])) }
        ensures rays { OnOk result (ListsRays self.new) }
        ensures err { OnErr result (self.new ≡ self.old) }
        ensures range { IfErr result (λ e. e ≡ Num.Range → HasLargeRay T.HALF row.now self.old.rays) }
    {
        let cut = match cut(alloc, row, self.rows.len(), &self.rays, &self.zeros) {
            Ok(cut) => cut,
            Err(refusal) => return Err(refusal),
        };
        let copy = match row.try_copy() {
            Ok(copy) => copy,
            Err(refusal) => return Err(Num::from(refusal)),
        };
        match self.rows.push(copy) {
            Ok(()) => {
                self.rays = cut.rays;
                self.zeros = cut.zeros;
                Ok(())
            }
            Err(refusal) => Err(Num::from(refusal)),
        }
    }

    /// The primitive extreme rays, each once.
    pub fn rays(&self) -> &Rows<T>
        ensures value { result.now ≡ self.now.rays }
        ensures description { IsDescription self.now }
        ensures rays { ListsRays self.now }
    {
        &self.rays
    }

    /// The primitive extreme rays, given up: this takes no memory.
    pub fn into_rays(self) -> Rows<T>
        ensures value { result ≡ self.rays }
        ensures description { IsDescription self }
    {
        self.rays
    }

    /// The places of the rows that are 0 at the ray at this place, increasing.
    pub fn zero_set(&self, place: usize) -> &Places
        requires { place < length self.now.rays }
        ensures { AreZeros self.now.rows (get_or self.now.rays place []) result.now }
    {
        self.zeros.at(place)
    }
}

// At each ray of a simplex all its rows are 0 but the ray's own.
fn started<T: Scalar>(
    alloc: Global,
    rows: &Rows<T>,
    simplex: &Simplex<T>,
) -> Result<Double<T>, NoMemory>
    requires { IsSimplexOf (length simplex.now.places) rows.now simplex.now.places simplex.now.rays }
    ensures rows { IfOk result (λ d. (d.width ≡ length simplex.now.places) × (d.rows ≡ vectors_at rows.now simplex.now.places)) }
    ensures rays { IfOk result (λ d. (d.rays ≡ simplex.now.rays) × ListsRays d) }
{
    let width = simplex.places.len();
    let rows = match rows.at_places(&simplex.places) {
        Ok(rows) => rows,
        Err(refusal) => return Err(refusal),
    };
    let rays = match simplex.rays.try_copy() {
        Ok(rays) => rays,
        Err(refusal) => return Err(refusal),
    };
    match other_places(alloc, width) {
        Ok(zeros) => Ok(Double {
            width,
            rows,
            rays,
            zeros,
        }),
        Err(refusal) => Err(refusal),
    }
}

// For each place below `count`, all the others.
fn other_places(alloc: Global, count: usize) -> Result<PlaceLists, NoMemory>
    ensures count { IfOk result (λ z. length z ≡ count) }
    ensures others { IfOk result (λ z. (i : ℕ) → i < count → IsListOf ◌<◌ (λ k. (k < count) × (k ≢ i)) (get_or z i [])) }
{
    let mut lists = PlaceLists::new(alloc);
    for place in 0..count {
        let others = match all_but(alloc, count, place) {
            Ok(others) => others,
            Err(refusal) => return Err(refusal),
        };
        match lists.push(others) {
            Ok(()) => {}
            Err(refusal) => return Err(refusal),
        }
    }
    Ok(lists)
}
