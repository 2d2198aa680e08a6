// Simplices under construction.
ghost use Rattle.std.specs.Prelude.{◌≡◌, ◌≢◌, ◌<◌, ◌≤◌, ◌∷◌, [], ◌↔◌, ℕ, length, map, get_or, neg_ℤ, pos, ◌<ℤ◌, IsTrue, MatchResult, MatchOption, Contains};
ghost use Rattle.std.specs.List.{AllByRecursion as Each, AllZip};
ghost use Rattle.nz_spec.specs.Vectors.{dot, HasWidth};
ghost use Rattle.nz_range.specs.Measures.{AreLargeFor};
ghost use Rattle.nz_linear.specs.Cones.{meet};
ghost use Rattle.nz_vec.specs.Primitives.{IsPrimitivePart};
ghost use Rattle.nz_cover.specs.Cells.{IsCell};
ghost use Rattle.nz_cover.specs.Corners.{vertex, forms_of, pairs_of, AreInOrder, without, IsBetween, IsTiltedAt, IsReplacedAt};

use nz_pointed::opposite;
use nz_vec::{Num, Row, Rows, Scalar, cmp_order};
use std::alloc::Global;
use std::cmp::Ordering;
use std::marker::Model;

/// A ray of a simplex by its place, with its form.
#[derive(Drop)]
pub(crate) struct Corner<T: Scalar> {
    pub(crate) place: usize,
    pub(crate) form: Row<T>,
}

impl<T: Scalar> Model for Corner<T> {
    ghost use Rattle.nz_cover.specs.Corners.{Vertex};

    ghost Value = { Vertex };

    ghost view = { λ c. record { place = c.place; form = c.form } };
}

/// A simplex: its rays by increasing place, each with the form that is positive at it and 0 at the
/// others.
#[derive(Drop)]
pub(crate) struct Cell<T: Scalar> {
    pub(crate) corners: Vec<Corner<T>>,
}

impl<T: Scalar> Model for Cell<T> {
    ghost use Rattle.std.specs.Prelude.{List};
    ghost use Rattle.nz_cover.specs.Corners.{Vertex};

    ghost Value = { List Vertex };

    ghost view = { λ c. c.corners.items };
}

// Whether two rows of one length are the same.
fn are_same<T: Scalar>(left: &Row<T>, right: &Row<T>) -> bool
    requires { length left.now ≡ length right.now }
    ensures { IsTrue result ↔ (left.now ≡ right.now) }
{
    let zero = T::of_i64(0);
    match cmp_order(zero, left, zero, right) {
        Ordering::Equal => true,
        Ordering::Less => false,
        Ordering::Greater => false,
    }
}

/// The place of the corner whose form is the facet.
pub(crate) fn across<T: Scalar>(cell: &Cell<T>, facet: &Row<T>) -> Option<usize>
    requires { Each (λ u. HasWidth (length facet.now) u.form) cell.now }
    ensures { MatchOption result (Each (λ u. u.form ≢ facet.now) cell.now) (λ j. (j < length cell.now) × ((get_or cell.now j (vertex 0 [])).form ≡ facet.now)) }
{
    for j in 0..cell.corners.len() {
        if are_same(&cell.corners[j].form, facet) {
            return Some(j);
        }
    }
    None
}

// The form that is 0 at the ray and lies between this form and the facet. The sum is divided at once,
// since it can be much larger than what it is a multiple of.
fn tilted<T: Scalar>(
    alloc: Global,
    ray: &Row<T>,
    facet: &Row<T>,
    factor: T,
    form: &Row<T>,
) -> Result<Row<T>, Num>
    requires facet { length facet.now ≡ length ray.now }
    requires form { length form.now ≡ length ray.now }
    requires factor { T.integer factor ≡ neg_ℤ (dot ray.now facet.now) }
    ensures { MatchResult result (IsPrimitivePart (meet ray.now form.now facet.now)) (λ e. e ≡ Num.Range → AreLargeFor T.HALF ray.now (facet.now ∷ form.now ∷ [])) }
{
    let value = match ray.dot(form) {
        Some(value) => value,
        None => return Err(Num::Range),
    };
    match Row::combine(alloc, value, facet, factor, form) {
        Ok(sum) => sum.primitive(),
        Err(refusal) => Err(refusal),
    }
}

// The corners but the one across the facet, with tilted forms.
fn tilted_others<T: Scalar>(
    alloc: Global,
    ray: &Row<T>,
    facet: &Row<T>,
    factor: T,
    cell: &Cell<T>,
    across: usize,
) -> Result<Vec<Corner<T>>, Num>
    requires facet { length facet.now ≡ length ray.now }
    requires forms { Each (λ u. HasWidth (length ray.now) u.form) cell.now }
    requires factor { T.integer factor ≡ neg_ℤ (dot ray.now facet.now) }
    ensures { MatchResult result (λ v. AllZip (IsTiltedAt ray.now facet.now) (without across cell.now) v.items) (λ e. e ≡ Num.Range → AreLargeFor T.HALF ray.now (facet.now ∷ forms_of cell.now)) }
{
    let mut others = Vec::new(alloc);
    for j in 0..cell.corners.len() {
        if j != across {
            let corner = &cell.corners[j];
            let form = match tilted(alloc, ray, facet, factor, &corner.form) {
                Ok(form) => form,
                Err(refusal) => return Err(refusal),
            };
            let place = corner.place;
            match others.push(Corner { place, form }) {
                Ok(()) => {}
                Err(_) => return Err(Num::NoMemory),
            }
        }
    }
    Ok(others)
}

// Where the place stands among those of the corners.
fn position_of<T: Scalar>(place: usize, corners: &[Corner<T>]) -> usize
    requires in_order { AreInOrder corners.now }
    requires fresh { Each (λ u. u.place ≢ place) corners.now }
    ensures { IsBetween place corners.now result }
{
    for position in 0..corners.len() {
        let corner = &corners[position];
        if place < corner.place {
            return position;
        }
    }
    corners.len()
}

/// The simplex with the ray at `place` for the corner across the facet, which the ray sees.
pub(crate) fn replaced<T: Scalar>(
    alloc: Global,
    rays: &Rows<T>,
    place: usize,
    facet: &Row<T>,
    factor: T,
    cell: &Cell<T>,
    across: usize,
) -> Result<Cell<T>, Num>
    requires within { place < length rays.now }
    requires width { length (get_or rays.now place []) ≡ length facet.now }
    requires cell { IsCell (length facet.now) (pairs_of rays.now cell.now) }
    requires factor { T.integer factor ≡ neg_ℤ (dot (get_or rays.now place []) facet.now) }
    requires seen { dot facet.now (get_or rays.now place []) <ℤ pos 0 }
    requires across { across < length cell.now }
    requires form { (get_or cell.now across (vertex 0 [])).form ≡ facet.now }
    requires in_order { AreInOrder cell.now }
    requires fresh { Each (λ u. u.place ≢ place) cell.now }
    ensures { MatchResult result (IsReplacedAt rays.now place facet.now (get_or rays.now place []) cell.now) (λ e. e ≡ Num.Range → AreLargeFor T.HALF (get_or rays.now place []) (facet.now ∷ forms_of cell.now)) }
{
    let ray = rays.at(place);
    let mut corners = match tilted_others(alloc, ray, facet, factor, cell, across) {
        Ok(corners) => corners,
        Err(refusal) => return Err(refusal),
    };
    let form = match opposite(alloc, facet) {
        Ok(form) => form,
        Err(refusal) => return Err(refusal),
    };
    let position = position_of(place, corners.as_slice());
    match corners.insert(position, Corner { place, form }) {
        Ok(()) => Ok(Cell { corners }),
        Err(_) => Err(Num::NoMemory),
    }
}
