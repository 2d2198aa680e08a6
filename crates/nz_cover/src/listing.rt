// The simplices in lexicographic order, with their forms.
ghost use Rattle.std.specs.Prelude.{◌≡◌, ◌<◌, [], length, map, get_or, IfOk};
ghost use Rattle.std.specs.List.{AllByRecursion as Each};
ghost use Rattle.nz_cover.specs.Corners.{places_of, forms_of};
ghost use Rattle.nz_cover.specs.Listing.{AreKeys, AreDistinct, AreListed};

use crate::corners::Cell;
use nz_vec::{NoMemory, PlaceLists, Places, RowLists, Rows, Scalar};
use std::alloc::Global;

/// Simplices as lists of the places of their rays, and for each its forms in the order of these.
#[derive(Drop)]
pub struct Cover<T: Scalar> {
    pub simplices: PlaceLists,
    pub forms: RowLists<T>,
}

/// The places of a simplex, and where it stands in the list: in the order of its fields.
#[derive(PartialEq, Eq, PartialOrd, Ord, Drop)]
pub(crate) struct Key {
    pub(crate) places: Vec<usize>,
    pub(crate) index: usize,
}

// The places of a simplex, to be compared.
fn compared_places<T: Scalar>(alloc: Global, cell: &Cell<T>) -> Result<Vec<usize>, NoMemory>
    ensures { IfOk result (λ v. v.items ≡ places_of cell.now) }
{
    let mut places = Vec::new(alloc);
    for j in 0..cell.corners.len() {
        match places.push(cell.corners[j].place) {
            Ok(()) => {}
            Err(_) => return Err(NoMemory),
        }
    }
    Ok(places)
}

// The keys of all simplices.
fn keys_of<T: Scalar>(alloc: Global, cells: &[Cell<T>]) -> Result<Vec<Key>, NoMemory>
    ensures { IfOk result (λ keys. AreKeys cells.now keys.items) }
{
    let mut keys = Vec::new(alloc);
    for index in 0..cells.len() {
        let places = match compared_places(alloc, &cells[index]) {
            Ok(places) => places,
            Err(refusal) => return Err(refusal),
        };
        match keys.push(Key { places, index }) {
            Ok(()) => {}
            Err(_) => return Err(NoMemory),
        }
    }
    Ok(keys)
}

// The places of the corners.
fn listed_places<T: Scalar>(alloc: Global, cell: &Cell<T>) -> Result<Places, NoMemory>
    ensures { IfOk result (λ places. places ≡ places_of cell.now) }
{
    let mut places = Places::new(alloc);
    for j in 0..cell.corners.len() {
        match places.push(cell.corners[j].place) {
            Ok(()) => {}
            Err(refusal) => return Err(refusal),
        }
    }
    Ok(places)
}

// The forms of the corners.
fn listed_forms<T: Scalar>(alloc: Global, cell: &Cell<T>) -> Result<Rows<T>, NoMemory>
    ensures { IfOk result (λ forms. forms ≡ forms_of cell.now) }
{
    let mut forms = Rows::new(alloc);
    for j in 0..cell.corners.len() {
        let form = match cell.corners[j].form.try_copy() {
            Ok(form) => form,
            Err(refusal) => return Err(refusal),
        };
        match forms.push(form) {
            Ok(()) => {}
            Err(refusal) => return Err(refusal),
        }
    }
    Ok(forms)
}

// The simplices in the order of the keys.
fn listed<T: Scalar>(alloc: Global, cells: &[Cell<T>], keys: &[Key]) -> Result<Cover<T>, NoMemory>
    requires { Each (λ k. k.index < length cells.now) keys.now }
    ensures simplices { IfOk result (λ c. c.simplices ≡ map (λ k. places_of (get_or cells.now k.index [])) keys.now) }
    ensures forms { IfOk result (λ c. c.forms ≡ map (λ k. forms_of (get_or cells.now k.index [])) keys.now) }
{
    let mut simplices = PlaceLists::new(alloc);
    let mut forms = RowLists::new(alloc);
    for i in 0..keys.len() {
        let cell = &cells[keys[i].index];
        let places = match listed_places(alloc, cell) {
            Ok(places) => places,
            Err(refusal) => return Err(refusal),
        };
        let rows = match listed_forms(alloc, cell) {
            Ok(rows) => rows,
            Err(refusal) => return Err(refusal),
        };
        match simplices.push(places) {
            Ok(()) => {}
            Err(refusal) => return Err(refusal),
        }
        match forms.push(rows) {
            Ok(()) => {}
            Err(refusal) => return Err(refusal),
        }
    }
    Ok(Cover { simplices, forms })
}

/// The simplices in lexicographic order of their places, with their forms.
pub(crate) fn sorted_cover<T: Scalar>(
    alloc: Global,
    cells: &[Cell<T>],
) -> Result<Cover<T>, NoMemory>
    requires { AreDistinct cells.now }
    ensures { IfOk result (λ c. AreListed cells.now c.simplices c.forms) }
{
    let mut keys = match keys_of(alloc, cells) {
        Ok(keys) => keys,
        Err(refusal) => return Err(refusal),
    };
    match keys.sort() {
        Ok(()) => listed(alloc, cells, keys.as_slice()),
        Err(_) => Err(NoMemory),
    }
}
