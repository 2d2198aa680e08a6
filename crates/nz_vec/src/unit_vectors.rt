// The unit vectors.
ghost use Rattle.std.specs.Prelude.{◌≡◌, ℕ, ◌<◌, IfOk};
ghost use Rattle.nz_spec.specs.Vectors.{entry, unit_vectors};
ghost use Rattle.nz_linear.specs.Echelon.{unit_at};

use crate::{NoMemory, Row, Scalar};
use std::alloc::Global;

/// The unit vectors of this width, in the order of the places of their 1.
pub fn units<T: Scalar>(alloc: Global, width: usize) -> Result<Vec<Row<T>>, NoMemory>
    ensures { IfOk result (λ v. v.items ≡ unit_vectors width) }
{
    let mut units = match Vec::with_capacity(alloc, width) {
        Ok(units) => units,
        Err(_) => return Err(NoMemory),
    };
    for place in 0..width {
        match unit(alloc, width, place) {
            Ok(unit) => units.push_reserved(unit),
            Err(refusal) => return Err(refusal),
        }
    }
    Ok(units)
}

/// The vector that is 1 at this place and else 0; the zero vector where the width has no such place.
pub fn unit<T: Scalar>(alloc: Global, width: usize, place: usize) -> Result<Row<T>, NoMemory>
    ensures { IfOk result (λ u. u ≡ unit_at width place) }
{
    let mut entries = match Vec::with_capacity(alloc, width) {
        Ok(entries) => entries,
        Err(_) => return Err(NoMemory),
    };
    for column in 0..width {
        entries.push_reserved(unit_entry(column, place));
    }
    Ok(Row::from_vec(entries))
}

fn unit_entry<T: Scalar>(column: usize, place: usize) -> T
    ensures { (w : ℕ) → column < w → T.integer result ≡ entry (unit_at w place) column }
{
    if column == place {
        T::of_i64(1)
    } else {
        T::of_i64(0)
    }
}
