// Sums whose terms are taken in the order that keeps them small: while the sum is above 0 a term
// below 0 is added, if one is left, and the other way round. No sum on the way is then larger than
// the whole or the largest term, so the whole is reached wherever it is a value.
ghost use Rattle.std.specs.Prelude.{◌≡◌, ◌+ℤ◌, ◌⊎◌, [], map, length, Contains, IfOk, IfErr, MatchOption, MatchBool, MatchResult};
ghost use Rattle.nz_spec.specs.Vectors.{dot};
ghost use Rattle.nz_scalar.specs.Exact.{Gives};
ghost use Rattle.nz_sweep.specs.Numbers.{SomeNumberLarge};
ghost use Rattle.nz_sweep.specs.Terms.{total, AreTerms, TakesOne};

use crate::inside::is_same;
use nz_vec::{NoMemory, Num, Row, Scalar, is_negative};
use std::alloc::Global;

// Terms of at least 0, and terms of at most 0.
#[derive(Drop)]
struct Terms<T: Scalar> {
    above: Vec<T>,
    below: Vec<T>,
}

/// Whether the value of a form at a vector is this number.
pub(crate) fn has_value<T: Scalar>(
    alloc: Global,
    form: &Row<T>,
    x: &Row<T>,
    value: T,
) -> Result<bool, Num>
    requires { length form.now ≡ length x.now }
    ensures { MatchResult result (λ b. MatchBool b (dot form.now x.now ≡ T.integer value) (¬ (dot form.now x.now ≡ T.integer value))) (λ e. e ≡ Num.Range → SomeNumberLarge T.HALF (λ n. (n ≡ T.integer value) ⊎ Contains form.now n ⊎ Contains x.now n)) }
{
    // a number that stands in a row is a value of the type, but only a call can tell
    let value = match value.try_sub(T::of_i64(0)) {
        Some(value) => value,
        None => return Err(Num::Range),
    };
    let terms = match products(alloc, form, x) {
        Ok(terms) => terms,
        Err(refusal) => return Err(refusal),
    };
    match balanced(terms.above, terms.below) {
        Some(sum) => Ok(is_same(sum, value)),
        None => Ok(false),
    }
}

// The products of the entries, by their signs.
fn products<T: Scalar>(alloc: Global, form: &Row<T>, x: &Row<T>) -> Result<Terms<T>, Num>
    requires { length form.now ≡ length x.now }
    ensures terms { IfOk result (λ t. AreTerms T.fits (map T.integer t.above.items) (map T.integer t.below.items)) }
    ensures sum { IfOk result (λ t. total (map T.integer t.above.items) +ℤ total (map T.integer t.below.items) ≡ dot form.now x.now) }
    ensures cause { IfErr result (λ e. e ≡ Num.Range → SomeNumberLarge T.HALF (λ n. Contains form.now n ⊎ Contains x.now n)) }
{
    let mut terms = Terms {
        above: Vec::new(alloc),
        below: Vec::new(alloc),
    };
    for place in 0..form.len() {
        let product = match form.at(place).try_mul(x.at(place)) {
            Some(product) => product,
            None => return Err(Num::Range),
        };
        terms = match with_term(terms, product) {
            Ok(terms) => terms,
            Err(refusal) => return Err(Num::from(refusal)),
        };
    }
    Ok(terms)
}

fn with_term<T: Scalar>(terms: Terms<T>, term: T) -> Result<Terms<T>, NoMemory>
    requires terms { AreTerms T.fits (map T.integer terms.above.items) (map T.integer terms.below.items) }
    requires fits { T.fits (T.integer term) }
    ensures terms { IfOk result (λ t. AreTerms T.fits (map T.integer t.above.items) (map T.integer t.below.items)) }
    ensures sum { IfOk result (λ t. total (map T.integer t.above.items) +ℤ total (map T.integer t.below.items) ≡ (total (map T.integer terms.above.items) +ℤ total (map T.integer terms.below.items)) +ℤ T.integer term) }
{
    let Terms {
        mut above,
        mut below,
    } = terms;
    if is_negative(term) {
        return match below.push(term) {
            Ok(()) => Ok(Terms { above, below }),
            Err(_) => Err(NoMemory),
        };
    }
    match above.push(term) {
        Ok(()) => Ok(Terms { above, below }),
        Err(_) => Err(NoMemory),
    }
}

// The sum of the terms. None exactly where it is no value of the type.
fn balanced<T: Scalar>(above: Vec<T>, below: Vec<T>) -> Option<T>
    requires { AreTerms T.fits (map T.integer above.items) (map T.integer below.items) }
    ensures { Gives T.integer T.fits result (total (map T.integer above.items) +ℤ total (map T.integer below.items)) }
{
    let mut above = above;
    let mut below = below;
    let mut sum = T::of_i64(0);
    'terms: loop {
        let term = match next(sum, &mut above, &mut below) {
            Some(term) => term,
            None => return Some(sum),
        };
        sum = match sum.try_add(term) {
            Some(sum) => sum,
            None => return None,
        };
    }
}

// Takes out the term to be added to this sum.
fn next<T: Scalar>(sum: T, above: &mut Vec<T>, below: &mut Vec<T>) -> Option<T>
    ensures { MatchOption result ((above.old.items ≡ []) × (below.old.items ≡ [])) (λ t. TakesOne (T.integer sum) (map T.integer above.old.items) (map T.integer below.old.items) (map T.integer above.new.items) (map T.integer below.new.items) (T.integer t)) }
{
    if is_negative(sum) {
        return match above.pop() {
            Some(term) => Some(term),
            None => below.pop(),
        };
    }
    match below.pop() {
        Some(term) => Some(term),
        None => above.pop(),
    }
}
