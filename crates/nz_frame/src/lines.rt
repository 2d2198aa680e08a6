// A line in coordinates of a base, as the vector that is shown.
ghost use Rattle.std.specs.Prelude.{◌≡◌, IfOk, IfErr, length};
ghost use Rattle.nz_spec.specs.Vectors.{scaled, IsNonzero};
ghost use Rattle.nz_frame.specs.Frames.{vector_at, IsLed, LacksMultiple, LacksLine};

use nz_pointed::leads_positive;
use nz_sweep::Basis;
use nz_vec::{Ints, Num, Row, Scalar};
use std::alloc::Global;

/// The line with these coordinates: their vector or its opposite, whichever has a positive first
/// nonzero entry. Where the coordinates are primitive it is no multiple of a shorter one.
pub fn least_line<T: Scalar>(alloc: Global, base: &Basis<T>, line: &Row<T>) -> Result<Ints, Num>
    requires width { length line.now ≡ length base.now.vectors }
    requires nonzero { IsNonzero (vector_at base.now line.now) }
    ensures led { IfOk result (IsLed (vector_at base.now line.now)) }
    ensures cause { IfErr result (λ e. e ≡ Num.Range → LacksLine T.fits base.now line.now) }
{
    let vector = match base.vector(alloc, line) {
        Ok(vector) => vector,
        Err(refusal) => return Err(refusal),
    };
    if leads_positive(&vector) {
        multiple(alloc, &vector, T::of_i64(1))
    } else {
        multiple(alloc, &vector, T::of_i64(-1))
    }
}

// The row times a number.
fn multiple<T: Scalar>(alloc: Global, row: &Row<T>, factor: T) -> Result<Ints, Num>
    ensures same { IfOk result (λ v. v ≡ scaled (T.integer factor) row.now) }
    ensures cause { IfErr result (λ e. e ≡ Num.Range → LacksMultiple T.fits (T.integer factor) row.now) }
{
    let mut entries = Ints::new(alloc);
    for place in 0..row.len() {
        let entry = match factor.try_mul(row.at(place)) {
            Some(entry) => entry,
            None => return Err(Num::Range),
        };
        match entries.push(entry.to_i128()) {
            Ok(()) => {}
            Err(refusal) => return Err(Num::from(refusal)),
        }
    }
    Ok(entries)
}
