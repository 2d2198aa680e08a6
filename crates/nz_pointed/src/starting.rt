ghost use Rattle.std.specs.Prelude.{◌≡◌, MatchResult};
ghost use Rattle.std.specs.List.{AllByRecursion as Each};
ghost use Rattle.nz_spec.specs.Vectors.{HasWidth};
ghost use Rattle.nz_pointed.specs.Elimination.{IsElimination};
ghost use Rattle.nz_pointed.specs.Pointed.{IsAnswer, AreEquationsWith, IsTooLarge};

use crate::elimination::Elimination;
use crate::signs::led;
use nz_vec::{Num, Places, Row, Rows, Scalar};
use std::alloc::Global;

/// The first independent rows by their places, and for each its ray: the primitive vector at which
/// it is positive and the others are 0.
#[derive(Drop)]
pub struct Simplex<T: Scalar> {
    pub places: Places,
    pub rays: Rows<T>,
}

/// What is known of rows at the start of an algorithm.
#[derive(Drop)]
pub enum Pointed<T: Scalar> {
    Simplex(Simplex<T>),
    /// A nonzero vector at which all rows vanish. Its first nonzero entry is positive.
    Line(Row<T>),
}

/// The equations of rows: the forms at which they show that the rows do not span all vectors.
#[derive(Drop)]
pub struct Equations<T: Scalar> {
    /// The columns that are no key column, increasing.
    pub columns: Places,
    /// For each of them the primitive form that is 0 at all rows, positive at this column, and 0 at
    /// the others.
    pub forms: Rows<T>,
}

/// Decides by elimination whether the rows, forms on `rank` coordinates, vanish together at a
/// nonzero vector. Range comes only where a normal form of the rows, or a row at one, has a measure
/// above `HALF`.
pub fn start<T: Scalar>(alloc: Global, rows: &Rows<T>, rank: usize) -> Result<Pointed<T>, Num>
    requires { Each (HasWidth rank) rows.now }
    ensures { MatchResult result (IsAnswer rank rows.now) (λ e. e ≡ Num.Range → IsTooLarge T.HALF rank rows.now) }
{
    match eliminated(alloc, rows, rank) {
        Ok(elimination) => elimination.answer(alloc),
        Err(refusal) => Err(refusal),
    }
}

/// The equations of the rows, vectors of this width, with their columns. Range comes only where a
/// normal form of the rows, or a row at one, has a measure above `HALF`.
pub fn equations_of<T: Scalar>(
    alloc: Global,
    rows: &Rows<T>,
    width: usize,
) -> Result<Equations<T>, Num>
    requires { Each (HasWidth width) rows.now }
    ensures { MatchResult result (λ e. AreEquationsWith width rows.now e.columns e.forms) (λ e. e ≡ Num.Range → IsTooLarge T.HALF width rows.now) }
{
    match eliminated(alloc, rows, width) {
        Ok(elimination) => match elimination.equations(alloc) {
            Ok(equations) => Ok(equations),
            Err(refusal) => Err(Num::from(refusal)),
        },
        Err(refusal) => Err(refusal),
    }
}

// What elimination holds after all rows.
fn eliminated<T: Scalar>(alloc: Global, rows: &Rows<T>, width: usize) -> Result<Elimination<T>, Num>
    requires { Each (HasWidth width) rows.now }
    ensures { MatchResult result (λ e. IsElimination width rows.now e.places e.chosen.items e.left.items) (λ e. e ≡ Num.Range → IsTooLarge T.HALF width rows.now) }
{
    let mut elimination = match Elimination::new(alloc, width) {
        Ok(elimination) => elimination,
        Err(refusal) => return Err(Num::from(refusal)),
    };
    for place in 0..rows.len() {
        match elimination.absorb(alloc, rows, place) {
            Ok(()) => {}
            Err(refusal) => return Err(refusal),
        }
    }
    Ok(elimination)
}
