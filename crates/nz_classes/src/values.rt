// The values of forms at vectors, and the floors of quotients.
ghost use Rattle.std.specs.Prelude.{◌≡◌, pos, ◌<ℤ◌, ◌≤ℤ◌, ◌<◌, length, map, IfOk, MatchBool, MatchResult};
ghost use Rattle.std.specs.List.{AllByRecursion as Each};
ghost use Rattle.nz_spec.specs.Vectors.{values_at, HasWidth};
ghost use Rattle.nz_linear.specs.DualPairs.{divisor};
ghost use Rattle.nz_vec.specs.Sums.{HasValueOutside};
ghost use Rattle.nz_classes.specs.Steps.{AreQuotients};
ghost use Rattle.nz_classes.specs.Walks.{paired};

use nz_vec::{NoMemory, Num, Row, Rows, Scalar};
use std::alloc::Global;

/// The values of the forms at each of some vectors.
pub(crate) fn values_of_all<T: Scalar>(
    alloc: Global,
    forms: &Rows<T>,
    vectors: &Rows<T>,
) -> Result<Rows<T>, Num>
    requires vectors_wide { Each (HasWidth (length forms.now)) vectors.now }
    requires forms_wide { Each (HasWidth (length forms.now)) forms.now }
    ensures { MatchResult result (λ v. v ≡ map (values_at forms.now) vectors.now) (λ e. e ≡ Num.Range → HasValueOutside T.fits forms.now vectors.now) }
{
    let mut all = Rows::new(alloc);
    for place in 0..vectors.len() {
        let values = match forms.values_at(vectors.at(place)) {
            Ok(values) => values,
            Err(refusal) => return Err(refusal),
        };
        match all.push(values) {
            Ok(()) => {}
            Err(refusal) => return Err(Num::from(refusal)),
        }
    }
    Ok(all)
}

/// The value of each form at its own side.
pub(crate) fn divisors_of<T: Scalar>(
    alloc: Global,
    sides: &Rows<T>,
    forms: &Rows<T>,
) -> Result<Row<T>, Num>
    requires one_each { length forms.now ≡ length sides.now }
    requires sides_wide { Each (HasWidth (length sides.now)) sides.now }
    requires forms_wide { Each (HasWidth (length sides.now)) forms.now }
    ensures { MatchResult result (λ d. d ≡ map divisor (paired forms.now sides.now)) (λ e. e ≡ Num.Range → HasValueOutside T.fits forms.now sides.now) }
{
    let mut divisors = match Vec::with_capacity(alloc, sides.len()) {
        Ok(divisors) => divisors,
        Err(_) => return Err(Num::NoMemory),
    };
    for place in 0..sides.len() {
        match forms.at(place).dot(sides.at(place)) {
            Some(divisor) => divisors.push_reserved(divisor),
            None => return Err(Num::Range),
        }
    }
    Ok(Row::from_vec(divisors))
}

/// Whether no divisor is above 1.
pub(crate) fn are_at_most_one<T: Scalar>(divisors: &Row<T>) -> bool
    ensures { MatchBool result (Each (λ d. d ≤ℤ pos 1) divisors.now) (¬ Each (λ d. d ≤ℤ pos 1) divisors.now) }
{
    let one = T::of_i64(1);
    for place in 0..divisors.len() {
        if is_below(one, divisors.at(place)) {
            return false;
        }
    }
    true
}

/// Whether the first value stands for less than the second.
pub(crate) fn is_below<T: Scalar>(a: T, b: T) -> bool
    ensures { MatchBool result (T.integer a <ℤ T.integer b) (T.integer b ≤ℤ T.integer a) }
{
    a < b
}

/// The floors of the entries of the forms at a column by the divisors.
pub(crate) fn quotients_of<T: Scalar>(
    alloc: Global,
    forms: &Rows<T>,
    divisors: &Row<T>,
    column: usize,
) -> Result<Row<T>, NoMemory>
    requires one_each { length divisors.now ≡ length forms.now }
    requires wide { Each (HasWidth (length forms.now)) forms.now }
    requires column { column < length forms.now }
    requires positive { Each (λ d. pos 0 <ℤ d) divisors.now }
    ensures { IfOk result (AreQuotients forms.now divisors.now column) }
{
    let mut floors = match Vec::with_capacity(alloc, forms.len()) {
        Ok(floors) => floors,
        Err(_) => return Err(NoMemory),
    };
    for place in 0..forms.len() {
        let value = forms.at(place).at(column);
        floors.push_reserved(value.floor_div(divisors.at(place)).unwrap());
    }
    Ok(Row::from_vec(floors))
}
