// Sums that stay inside a type as long as their terms and the whole sum do.
ghost use Rattle.std.specs.Prelude.{◌≡◌, ◌+ℤ◌, [], map, IfOk, IfSome, OnOk, MatchOption, MatchResult};
ghost use Rattle.std.specs.List.{AllByRecursion as Each};
ghost use Rattle.nz_classes.specs.Sums.{sum_of, HasSigns, IsSortedIn, IsSplit, IsSumRefusal, IsTaken};

use nz_vec::{NoMemory, Num, Scalar, is_negative};
use std::alloc::Global;

/// The sum of the terms. Range comes only where a term or the whole sum is no value of the type:
/// where the sum from the left leaves the type on its way, a term of the other sign comes next.
pub(crate) fn balanced_sum<T: Scalar>(alloc: Global, terms: &[T]) -> Result<T, Num>
    ensures { MatchResult result (λ s. T.integer s ≡ sum_of (map T.integer terms.now)) (IsSumRefusal T.fits (map T.integer terms.now)) }
{
    match left_sum(terms) {
        Some(sum) => return Ok(sum),
        None => {}
    }
    let (above, below) = match split(alloc, terms) {
        Ok(halves) => halves,
        Err(refusal) => return Err(Num::from(refusal)),
    };
    match merged(above, below) {
        Some(sum) => Ok(sum),
        None => Err(Num::Range),
    }
}

/// The sum from the left, if it stays inside the type.
fn left_sum<T: Scalar>(terms: &[T]) -> Option<T>
    ensures { IfSome result (λ s. T.integer s ≡ sum_of (map T.integer terms.now)) }
{
    let mut sum = T::of_i64(0);
    for term in terms {
        sum = match sum.try_add(*term) {
            Some(more) => more,
            None => return None,
        };
    }
    Some(sum)
}

/// The terms that are not below 0, and those that are.
fn split<T: Scalar>(alloc: Global, terms: &[T]) -> Result<(Vec<T>, Vec<T>), NoMemory>
    ensures { IfOk result (λ h. IsSplit T.integer terms.now h.0.items h.1.items) }
{
    let mut above = Vec::new(alloc);
    let mut below = Vec::new(alloc);
    for term in terms {
        match sort_in(*term, &mut above, &mut below) {
            Ok(()) => {}
            Err(refusal) => return Err(refusal),
        }
    }
    Ok((above, below))
}

fn sort_in<T: Scalar>(term: T, above: &mut Vec<T>, below: &mut Vec<T>) -> Result<(), NoMemory>
    ensures { OnOk result (IsSortedIn T.integer term above.old.items below.old.items above.new.items below.new.items) }
{
    if is_negative(term) {
        match below.push(term) {
            Ok(()) => Ok(()),
            Err(_) => Err(NoMemory),
        }
    } else {
        match above.push(term) {
            Ok(()) => Ok(()),
            Err(_) => Err(NoMemory),
        }
    }
}

/// The sum of numbers of at least 0 and of numbers of at most 0, each time with the sign that leads
/// the sum towards 0.
fn merged<T: Scalar>(mut above: Vec<T>, mut below: Vec<T>) -> Option<T>
    requires { HasSigns T.integer above.items below.items }
    ensures { MatchOption result (Each (λ t. T.fits (T.integer t)) above.items → Each (λ t. T.fits (T.integer t)) below.items → ¬ T.fits (sum_of (map T.integer above.items) +ℤ sum_of (map T.integer below.items))) (λ s. T.integer s ≡ sum_of (map T.integer above.items) +ℤ sum_of (map T.integer below.items)) }
{
    let mut sum = T::of_i64(0);
    'terms: while let Some(term) = take_towards_zero(sum, &mut above, &mut below) {
        sum = match sum.try_add(term) {
            Some(more) => more,
            None => return None,
        };
    }
    Some(sum)
}

/// The next term: of the other sign than the sum, if there is one.
fn take_towards_zero<T: Scalar>(sum: T, above: &mut Vec<T>, below: &mut Vec<T>) -> Option<T>
    ensures { MatchOption result ((above.old.items ≡ []) × (below.old.items ≡ [])) (IsTaken (T.integer sum) above.old.items below.old.items above.new.items below.new.items) }
{
    if is_negative(sum) {
        match above.pop() {
            Some(term) => Some(term),
            None => below.pop(),
        }
    } else {
        match below.pop() {
            Some(term) => Some(term),
            None => above.pop(),
        }
    }
}
