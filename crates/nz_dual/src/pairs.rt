// Sums of two elements, one of each side and both rising there, that neither side needs.
ghost use Rattle.std.specs.Prelude.{◌≡◌, ◌+◌, ◌<◌, [], length, slice_index_or, IfSome, true};
ghost use Rattle.nz_spec.specs.Vectors.{plus};
ghost use Rattle.nz_dual.specs.PairValues.{sums_before, HasValues, FallsAway};
ghost use Rattle.nz_dual.specs.Closures.{AreParts, IsSettled};

use crate::sides::Side;
use nz_vec::{Row, Rows, Scalar, is_negative};
use std::alloc::Global;

/// Whether the values at two elements show that neither side needs their sum. The sum is not formed.
pub(crate) fn is_settled<T: Scalar>(
    alloc: Global,
    rows: &Rows<T>,
    up: &mut Side<T>,
    down: &mut Side<T>,
    first: usize,
    second: usize,
) -> bool
    requires part { AreParts rows.now up.old down.old }
    requires first { first < length up.old.rising }
    requires second { second < length down.old.rising }
    ensures same { (up.new ≡ up.old) × (down.new ≡ down.old) }
    ensures settled { result ≡ true → IsSettled rows.now up.old down.old (plus (slice_index_or up.old.rising first []) (slice_index_or down.old.rising second [])) }
{
    if falls(alloc, up, down, rows.len(), first, second) {
        falls(alloc, down, up, rows.len(), second, first)
    } else {
        false
    }
}

/// Whether the sum of a rising element of this side and one of the other is not on this side, or falls
/// by an element of it. False where a value of the sum is not known.
fn falls<T: Scalar>(
    alloc: Global,
    side: &mut Side<T>,
    other: &Side<T>,
    count: usize,
    own: usize,
    partner: usize,
) -> bool
    requires own { HasValues count side.old own }
    requires partner { HasValues count other.now partner }
    requires columns { side.old.columns ≡ count + 1 }
    ensures same { side.new ≡ side.old }
    ensures answer { result ≡ true → FallsAway count side.old.values (slice_index_or side.old.rising_values own []) (slice_index_or other.now.rising_values partner []) }
{
    let above = side.rising_values_at(own);
    let below = other.rising_values_at(partner);
    let height = match above.at(count).try_sub(below.at(count)) {
        Some(height) => height,
        None => return false,
    };
    if is_negative(height) {
        return true;
    }
    match values_of_sum(alloc, count, above, below, height) {
        Some(values) => side.has_below(&values),
        None => false,
    }
}

/// The sums of the first values, and behind them a last value. None where one is no value of the
/// type, or there is no memory.
fn values_of_sum<T: Scalar>(
    alloc: Global,
    count: usize,
    own: &Row<T>,
    other: &Row<T>,
    last: T,
) -> Option<Row<T>>
    requires own { length own.now ≡ count + 1 }
    requires other { length other.now ≡ count + 1 }
    ensures { IfSome result (λ v. v ≡ sums_before count own.now other.now (T.integer last)) }
{
    let mut values = match Vec::with_capacity(alloc, own.len()) {
        Ok(values) => values,
        Err(_) => return None,
    };
    for place in 0..count {
        match own.at(place).try_add(other.at(place)) {
            Some(value) => values.push_reserved(value),
            None => return None,
        }
    }
    values.push_reserved(last);
    Some(Row::from_vec(values))
}
