// The values of forms at a vector, and their sum.
ghost use Rattle.std.specs.Prelude.{◌≡◌, ◌∷◌, ◌++◌, [], ◌<◌, ◌≤◌, ◌+◌, ◌^◌, length, take, Contains, MatchOption, MatchResult};
ghost use Rattle.std.specs.List.{AllByRecursion as Each};
ghost use Rattle.nz_spec.specs.Vectors.{values_at, HasWidth};
ghost use Rattle.nz_range.specs.Measures.{measure, SomeLargeAt};

use nz_vec::{Num, Row, Rows, Scalar};
use std::alloc::Global;

/// The values of the rows at a vector, and behind them a last value.
pub(crate) fn values_before<T: Scalar>(
    alloc: Global,
    rows: &Rows<T>,
    x: &Row<T>,
    last: T,
) -> Result<Row<T>, Num>
    requires { Each (HasWidth (length x.now)) rows.now }
    ensures { MatchResult result (λ v. v ≡ values_at rows.now x.now ++ T.integer last ∷ []) (λ e. e ≡ Num.Range → SomeLargeAt T.HALF (Contains rows.now) (λ v. v ≡ x.now)) }
{
    let mut values = match Vec::with_capacity(alloc, rows.len()) {
        Ok(values) => values,
        Err(_) => return Err(Num::NoMemory),
    };
    for place in 0..rows.len() {
        match rows.at(place).dot(x) {
            Some(value) => values.push_reserved(value),
            None => return Err(Num::Range),
        }
    }
    match values.push(last) {
        Ok(()) => Ok(Row::from_vec(values)),
        Err(_) => Err(Num::NoMemory),
    }
}

/// The sum of the sizes of the first values. It is reckoned in 128 bits, since many equal rows may
/// each be small where their sum is not; none comes where it is 2^127 or more.
pub(crate) fn size_of<T: Scalar>(values: &Row<T>, count: usize) -> Option<u128>
    requires { count ≤ length values.now }
    ensures { MatchOption result (2 ^ 127 ≤ measure (take count values.now)) (λ d. (d ≡ measure (take count values.now)) × (d < 2 ^ 127)) }
{
    let mut sum: u128 = 0;
    for place in 0..count {
        sum += values.at(place).to_i128().unsigned_abs();
        if sum >= LIMIT {
            return None;
        }
    }
    Some(sum)
}

const LIMIT: u128 = 0x8000_0000_0000_0000_0000_0000_0000_0000;
