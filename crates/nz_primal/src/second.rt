// Second coordinates: those in a base of the vectors at which the rows are 0 that are 0 at all rays.
ghost use Rattle.std.specs.Prelude.{◌≡◌, map, length, IfOk, IfErr, OnOk, MatchBool, MatchOption};
ghost use Rattle.std.specs.List.{AllByRecursion as Each};
ghost use Rattle.nz_spec.specs.Vectors.{HasWidth, combination};
ghost use Rattle.nz_spec.specs.Sums.{IsInGroup};
ghost use Rattle.nz_primal.specs.Second.{VanishesOn, IsFaceBase, HaveCoordinates};
ghost use Rattle.nz_measures.specs.Sweeps.{Sweeps, whole_base};
ghost use Rattle.nz_primal.specs.Parts.{IsSecond, IsCutAt, LacksValue, MoveOn, IsCutCause, IsFaceCause, LacksCoordinates, IsSecondCause};
ghost use Rattle.nz_sweep.specs.Numbers.{SomeNumberLarge, IsCoordinateNumber};

use nz_sweep::{Basis, all_pulled};
use nz_vec::{Num, Row, Rows, Scalar};
use std::alloc::Global;

/// A base of the vectors at which the rows are 0 that are 0 at all rays, and the rays and the rows in
/// its coordinates. There the cone has as many independent rays as its width.
#[derive(Drop)]
pub(crate) struct Second<T: Scalar> {
    pub(crate) base: Basis<T>,
    pub(crate) rays: Rows<T>,
    pub(crate) rows: Rows<T>,
}

/// The second coordinates of a cone that is given by its rows and its rays.
pub(crate) fn in_second<T: Scalar>(
    alloc: Global,
    rows: &Rows<T>,
    width: usize,
    rays: &Rows<T>,
) -> Result<Second<T>, Num>
    requires rows { Each (HasWidth width) rows.now }
    requires rays { Each (HasWidth width) rays.now }
    ensures found { IfOk result (λ s. IsSecond width rows.now rays.now s.base s.rays s.rows) }
    ensures sweeps { IfOk result (λ s. Sweeps (MoveOn rays.now) rows.now (whole_base width) s.base) }
    ensures cause { IfErr result (λ e. e ≡ Num.Range → IsSecondCause T.HALF T.fits width rows.now rays.now) }
{
    let base = match face(alloc, rows, width, rays) {
        Ok(base) => base,
        Err(refusal) => return Err(refusal),
    };
    let coordinates = match all_coordinates(alloc, &base, rays) {
        Ok(coordinates) => coordinates,
        Err(refusal) => return Err(refusal),
    };
    match all_pulled(alloc, &base, rows) {
        Ok(rows) => Ok(Second {
            base,
            rays: coordinates,
            rows,
        }),
        Err(refusal) => Err(refusal),
    }
}

// All vectors, cut by each row that is 0 at all rays.
fn face<T: Scalar>(
    alloc: Global,
    rows: &Rows<T>,
    width: usize,
    rays: &Rows<T>,
) -> Result<Basis<T>, Num>
    requires rows { Each (HasWidth width) rows.now }
    requires rays { Each (HasWidth width) rays.now }
    ensures base { IfOk result (λ b. (b.width ≡ width) × IsFaceBase width rows.now rays.now b.vectors) }
    ensures sweeps { IfOk result (λ b. Sweeps (MoveOn rays.now) rows.now (whole_base width) b) }
    ensures cause { IfErr result (λ e. e ≡ Num.Range → IsFaceCause T.HALF T.fits width rows.now rays.now) }
{
    let mut base = match Basis::whole(alloc, width) {
        Ok(base) => base,
        Err(refusal) => return Err(Num::from(refusal)),
    };
    for place in 0..rows.len() {
        match cut_at(alloc, &mut base, rows.at(place), rays) {
            Ok(()) => {}
            Err(refusal) => return Err(refusal),
        }
    }
    Ok(base)
}

// Cuts the base by the row if that is 0 at all rays.
fn cut_at<T: Scalar>(
    alloc: Global,
    base: &mut Basis<T>,
    row: &Row<T>,
    rays: &Rows<T>,
) -> Result<(), Num>
    requires row { length row.now ≡ base.old.width }
    requires rays { Each (HasWidth (base.old.width)) rays.now }
    ensures cut { OnOk result (IsCutAt row.now rays.now base.old base.new) }
    ensures moves { OnOk result (MoveOn rays.now row.now base.old base.new) }
    ensures cause { IfErr result (λ e. e ≡ Num.Range → IsCutCause T.HALF T.fits row.now rays.now base.old) }
{
    match vanishes(row, rays) {
        Some(true) => base.cut_equation(alloc, row),
        Some(false) => Ok(()),
        None => Err(Num::Range),
    }
}

// Whether the row is 0 at each ray. None where a value is no value of the type.
fn vanishes<T: Scalar>(row: &Row<T>, rays: &Rows<T>) -> Option<bool>
    requires { Each (HasWidth (length row.now)) rays.now }
    ensures { MatchOption result (LacksValue T.fits row.now rays.now) (λ b. MatchBool b (VanishesOn rays.now row.now) (¬ VanishesOn rays.now row.now)) }
{
    let zero = T::of_i64(0);
    for place in 0..rays.len() {
        match row.dot(rays.at(place)) {
            Some(value) => {
                if value != zero {
                    return Some(false);
                }
            }
            None => return None,
        }
    }
    Some(true)
}

// The coordinates of vectors of the lattice.
fn all_coordinates<T: Scalar>(
    alloc: Global,
    base: &Basis<T>,
    vectors: &Rows<T>,
) -> Result<Rows<T>, Num>
    requires widths { Each (HasWidth base.now.width) vectors.now }
    requires inside { Each (IsInGroup base.now.width base.now.vectors) vectors.now }
    ensures have { IfOk result (λ r. HaveCoordinates base.now.width base.now.vectors r vectors.now) }
    ensures cause { IfErr result (λ e. e ≡ Num.Range → LacksCoordinates T.HALF base.now vectors.now) }
{
    let mut list = Rows::new(alloc);
    for place in 0..vectors.len() {
        let coordinates = match coordinates_of(alloc, base, vectors.at(place)) {
            Ok(coordinates) => coordinates,
            Err(refusal) => return Err(refusal),
        };
        match list.push(coordinates) {
            Ok(()) => {}
            Err(refusal) => return Err(Num::from(refusal)),
        }
    }
    Ok(list)
}

// The coordinates of one.
fn coordinates_of<T: Scalar>(alloc: Global, base: &Basis<T>, vector: &Row<T>) -> Result<Row<T>, Num>
    requires width { length vector.now ≡ base.now.width }
    requires inside { IsInGroup base.now.width base.now.vectors vector.now }
    ensures same { IfOk result (λ c. (length c ≡ length base.now.vectors) × (combination base.now.width c base.now.vectors ≡ vector.now)) }
    ensures cause { IfErr result (λ e. e ≡ Num.Range → SomeNumberLarge T.HALF (IsCoordinateNumber base.now vector.now)) }
{
    match base.coordinates(alloc, vector) {
        Ok(coordinates) => match coordinates {
            Some(coordinates) => Ok(coordinates),
            None => unreachable!(),
        },
        Err(refusal) => Err(refusal),
    }
}
