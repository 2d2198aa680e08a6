//! Candidates with the values of the rows at them.
ghost use Rattle.std.specs.Prelude.{◌≡◌, map, MatchResult};
ghost use Rattle.nz_spec.specs.Vectors.{values_at};
ghost use Rattle.nz_vec.specs.Sums.{HasValueOutside};
ghost use Rattle.nz_reducer.specs.Reducers.{AreSeparated, AreValued};

use nz_vec::{NoMemory, Num, Rows, Scalar};
use std::alloc::Global;

/// A vector after the values of the rows at it. Candidates in this order have each reducer before
/// what it reduces.
#[derive(PartialEq, Eq, PartialOrd, Ord, Drop)]
pub(crate) struct Valued<T: Scalar> {
    pub(crate) values: Vec<T>,
    pub(crate) entries: Vec<T>,
}

/// The candidates with the values of the rows at them.
pub(crate) fn with_values<T: Scalar>(
    alloc: Global,
    rows: &Rows<T>,
    candidates: &Rows<T>,
) -> Result<Vec<Valued<T>>, Num>
    requires { AreSeparated rows.now candidates.now }
    ensures { MatchResult result (λ list. AreValued rows.now candidates.now list.items (λ c. map T.integer c.entries.items) (λ c. map T.integer c.values.items)) (λ e. e ≡ Num.Range → HasValueOutside T.fits rows.now candidates.now) }
{
    let mut list = match Vec::with_capacity(alloc, candidates.len()) {
        Ok(list) => list,
        Err(_) => return Err(Num::NoMemory),
    };
    for place in 0..candidates.len() {
        let candidate = candidates.at(place);
        let values = match rows.values_at(candidate) {
            Ok(values) => values.into_vec(),
            Err(refusal) => return Err(refusal),
        };
        let entries = match candidate.try_copy() {
            Ok(copy) => copy.into_vec(),
            Err(NoMemory) => return Err(Num::NoMemory),
        };
        list.push_reserved(Valued { values, entries });
    }
    Ok(list)
}
