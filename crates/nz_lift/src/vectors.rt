// Vectors with other entries in front or after them.
ghost use Rattle.std.specs.Prelude.{◌≡◌, ◌≤◌, ◌+◌, pos, length, take, ◌∷◌, ◌++◌, [], vec_capacity, IfOk};

use nz_vec::{NoMemory, Row, Scalar};
use std::alloc::Global;

/// The vector with the number after it.
pub(crate) fn extended<T: Scalar>(
    alloc: Global,
    point: &Row<T>,
    number: T,
) -> Result<Row<T>, NoMemory>
    ensures { IfOk result (λ r. r ≡ point.now ++ T.integer number ∷ []) }
{
    let mut entries = with_room(alloc, point.len(), 1)?;
    for place in 0..point.len() {
        entries.push_reserved(point.at(place));
    }
    entries.push_reserved(number);
    Ok(Row::from_vec(entries))
}

/// The vector with the number in front.
pub(crate) fn headed<T: Scalar>(
    alloc: Global,
    number: T,
    vector: &Row<T>,
) -> Result<Row<T>, NoMemory>
    ensures { IfOk result (λ r. r ≡ T.integer number ∷ vector.now) }
{
    let mut entries = with_room(alloc, vector.len(), 1)?;
    entries.push_reserved(number);
    for place in 0..vector.len() {
        entries.push_reserved(vector.at(place));
    }
    Ok(Row::from_vec(entries))
}

/// The vector with 1 in front and 0 after it.
pub(crate) fn opened<T: Scalar>(alloc: Global, point: &Row<T>) -> Result<Row<T>, NoMemory>
    ensures { IfOk result (λ r. r ≡ pos 1 ∷ point.now ++ pos 0 ∷ []) }
{
    let mut entries = with_room(alloc, point.len(), 2)?;
    entries.push_reserved(T::of_i64(1));
    for place in 0..point.len() {
        entries.push_reserved(point.at(place));
    }
    entries.push_reserved(T::of_i64(0));
    Ok(Row::from_vec(entries))
}

/// The first entries of the vector, as many as this size.
pub(crate) fn front<T: Scalar>(
    alloc: Global,
    vector: &Row<T>,
    size: usize,
) -> Result<Row<T>, NoMemory>
    requires { size ≤ length vector.now }
    ensures { IfOk result (λ r. r ≡ take size vector.now) }
{
    let mut entries = with_room(alloc, size, 0)?;
    for place in 0..size {
        entries.push_reserved(vector.at(place));
    }
    Ok(Row::from_vec(entries))
}

// No entries yet, with room for so many, and some more.
fn with_room<T: Scalar>(alloc: Global, count: usize, more: usize) -> Result<Vec<T>, NoMemory>
    ensures { IfOk result (λ v. (v.items ≡ []) × (vec_capacity v ≡ count + more)) }
{
    let room = match count.checked_add(more) {
        Some(room) => room,
        None => return Err(NoMemory),
    };
    match Vec::with_capacity(alloc, room) {
        Ok(entries) => Ok(entries),
        Err(_) => Err(NoMemory),
    }
}
