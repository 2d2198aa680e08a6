// The rows that are not of the simplex.
ghost use Rattle.std.specs.Prelude.{◌≡◌, ◌<◌, ◌∷◌, ◌++◌, [], length, get_or, IfOk, OnOk, MatchBool};
ghost use Rattle.std.specs.List.{AllByRecursion as Each};
ghost use Rattle.nz_spec.specs.Vectors.{HasWidth};
ghost use Rattle.nz_spec.specs.Covers.{vectors_at};
ghost use Rattle.nz_spec.specs.Stages.{IsFreshRow, Separates};
ghost use Rattle.nz_pointed.specs.Pointed.{AreFirstIndependent};

use nz_vec::{NoMemory, Places, Rows, Scalar};
use std::alloc::Global;

/// Copies of the rows that do not stand at these places, the first independent ones.
pub(crate) fn other_rows<T: Scalar>(
    alloc: Global,
    rows: &Rows<T>,
    places: &Places,
) -> Result<Rows<T>, NoMemory>
    requires rows_wide { Each (HasWidth (length places.now)) rows.now }
    requires places { AreFirstIndependent (length places.now) rows.now places.now }
    ensures { IfOk result (λ others. Separates (IsFreshRow (HasWidth (length places.now))) [] rows.now (vectors_at rows.now places.now) others) }
{
    let count = places.len();
    let mut others = Rows::new(alloc);
    let mut next = 0;
    for place in 0..rows.len() {
        if stands_at(places, next, place) {
            next += 1;
        } else {
            match push_copy(&mut others, rows, place) {
                Ok(()) => {}
                Err(refusal) => return Err(refusal),
            }
        }
    }
    Ok(others)
}

/// Whether the next of the places is this one.
fn stands_at(places: &Places, next: usize, place: usize) -> bool
    ensures { MatchBool result ((next < length places.now) × (get_or places.now next 0 ≡ place)) (¬ ((next < length places.now) × (get_or places.now next 0 ≡ place))) }
{
    if next >= places.len() {
        return false;
    }
    places.at(next) == place
}

/// Appends a copy of the row at a place.
fn push_copy<T: Scalar>(list: &mut Rows<T>, rows: &Rows<T>, place: usize) -> Result<(), NoMemory>
    requires { place < length rows.now }
    ensures { OnOk result (list.new ≡ list.old ++ get_or rows.now place [] ∷ []) }
{
    match rows.at(place).try_copy() {
        Ok(copy) => list.push(copy),
        Err(refusal) => Err(refusal),
    }
}
