// Vectors in the order of the values of forms: before its entries each gets its values.
ghost use Rattle.std.specs.Prelude.{◌≡◌, ◌≢◌, ◌++◌, ◌∷◌, [], map, drop, IfOk, IfErr, length, Contains, None, ◌+◌};
ghost use Rattle.std.specs.List.{AllByRecursion as Each};
ghost use Rattle.nz_spec.specs.Vectors.{HasWidth};
ghost use Rattle.nz_spec.specs.Order.{Pairwise, IsListOf};
ghost use Rattle.nz_vec.specs.Sums.{HasValueOutside};
ghost use Rattle.nz_primal.specs.Lists.{AreSeparating, IsBeforeBy};
ghost use Rattle.nz_primal.specs.Parts.{keyed};

use nz_degree::sort;
use nz_vec::{NoMemory, Num, Row, Rows, Scalar};
use std::alloc::Global;

/// The same vectors, increasing by the values of the forms, the first form first.
pub(crate) fn in_order<T: Scalar>(
    alloc: Global,
    vectors: &Rows<T>,
    width: usize,
    order: &Rows<T>,
) -> Result<Rows<T>, Num>
    requires widths { Each (HasWidth width) vectors.now }
    requires different { Pairwise ◌≢◌ vectors.now }
    requires order { AreSeparating width order.now }
    ensures sorted { IfOk result (IsListOf (IsBeforeBy order.now) (Contains vectors.now)) }
    ensures cause { IfErr result (λ e. e ≡ Num.Range → HasValueOutside T.fits order.now vectors.now) }
{
    let mut keys = match all_keyed(alloc, vectors, width, order) {
        Ok(keys) => keys,
        Err(refusal) => return Err(refusal),
    };
    match sort(alloc, &mut keys, ungraded(vectors)) {
        Ok(()) => {}
        Err(refusal) => return Err(refusal),
    }
    match all_ends(alloc, &keys, order.len(), width) {
        Ok(sorted) => Ok(sorted),
        Err(refusal) => Err(Num::from(refusal)),
    }
}

/// No grading: the order is by the entries alone.
pub(crate) fn ungraded<T: Scalar>(_vectors: &Rows<T>) -> Option<&Row<T>>
    ensures { result ≡ None }
{
    None
}

// Each vector with its values before it.
fn all_keyed<T: Scalar>(
    alloc: Global,
    vectors: &Rows<T>,
    width: usize,
    order: &Rows<T>,
) -> Result<Rows<T>, Num>
    requires widths { Each (HasWidth width) vectors.now }
    requires order { Each (HasWidth width) order.now }
    ensures keyed { IfOk result (λ r. r ≡ map (keyed order.now) vectors.now) }
    ensures cause { IfErr result (λ e. e ≡ Num.Range → HasValueOutside T.fits order.now vectors.now) }
{
    let mut keys = Rows::new(alloc);
    for place in 0..vectors.len() {
        let key = match key_of(vectors.at(place), order) {
            Ok(key) => key,
            Err(refusal) => return Err(refusal),
        };
        match keys.push(key) {
            Ok(()) => {}
            Err(refusal) => return Err(Num::from(refusal)),
        }
    }
    Ok(keys)
}

// The values of the forms at the vector, and then its entries.
fn key_of<T: Scalar>(vector: &Row<T>, order: &Rows<T>) -> Result<Row<T>, Num>
    requires { Each (HasWidth (length vector.now)) order.now }
    ensures key { IfOk result (λ r. r ≡ keyed order.now vector.now) }
    ensures cause { IfErr result (λ e. e ≡ Num.Range → HasValueOutside T.fits order.now (vector.now ∷ [])) }
{
    let values = match order.values_at(vector) {
        Ok(values) => values,
        Err(refusal) => return Err(refusal),
    };
    match with_entries(values.into_vec(), vector) {
        Ok(key) => Ok(Row::from_vec(key)),
        Err(refusal) => Err(Num::from(refusal)),
    }
}

// Appends the entries of the vector.
fn with_entries<T: Scalar>(mut values: Vec<T>, vector: &Row<T>) -> Result<Vec<T>, NoMemory>
    ensures { IfOk result (λ v. map T.integer v.items ≡ map T.integer values.items ++ vector.now) }
{
    for place in 0..vector.len() {
        match values.push(vector.at(place)) {
            Ok(()) => {}
            Err(_) => return Err(NoMemory),
        }
    }
    Ok(values)
}

// Each row without its first `count` entries.
fn all_ends<T: Scalar>(
    alloc: Global,
    keys: &Rows<T>,
    count: usize,
    width: usize,
) -> Result<Rows<T>, NoMemory>
    requires { Each (λ k. length k ≡ count + width) keys.now }
    ensures { IfOk result (λ r. r ≡ map (drop count) keys.now) }
{
    let mut rows = Rows::new(alloc);
    for place in 0..keys.len() {
        let row = match end_of(alloc, keys.at(place), count, width) {
            Ok(row) => row,
            Err(refusal) => return Err(refusal),
        };
        match rows.push(row) {
            Ok(()) => {}
            Err(refusal) => return Err(refusal),
        }
    }
    Ok(rows)
}

// The row without its first `count` entries.
fn end_of<T: Scalar>(
    alloc: Global,
    key: &Row<T>,
    count: usize,
    width: usize,
) -> Result<Row<T>, NoMemory>
    requires { length key.now ≡ count + width }
    ensures { IfOk result (λ r. r ≡ drop count key.now) }
{
    let mut entries = Vec::new(alloc);
    for place in count..key.len() {
        match entries.push(key.at(place)) {
            Ok(()) => {}
            Err(_) => return Err(NoMemory),
        }
    }
    Ok(Row::from_vec(entries))
}
