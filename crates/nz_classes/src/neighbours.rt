// The point in the class of a point and a unit vector.
ghost use Rattle.std.specs.Prelude.{◌≡◌, ◌<◌, ◌+ℤ◌, ◌<ℤ◌, ◌≤ℤ◌, [], ◌∷◌, ◌++◌, length, map, unsigned_abs, ◌*ℤ◌, IfSome, OnOk, MatchOption, MatchResult};
ghost use Rattle.std.specs.List.{AllByRecursion as Each};
ghost use Rattle.nz_spec.specs.Vectors.{combination, minus, opposite, plus, values_at, HasWidth};
ghost use Rattle.nz_linear.specs.Echelon.{unit_at};
ghost use Rattle.nz_classes.specs.Causes.{IsCaused};
ghost use Rattle.nz_classes.specs.Classes.{HasReducedValues, IsRestOf};
ghost use Rattle.nz_classes.specs.Steps.{column_terms, products, AreCarries, HasColumnOutside, HasPairOutside, IsCarry, IsPrepared};
ghost use Rattle.nz_classes.specs.Sums.{sum_of};
ghost use Rattle.nz_classes.specs.Walks.{paired};

use crate::balance::balanced_sum;
use crate::steps::Steps;
use crate::values::is_below;
use nz_vec::{NoMemory, Num, Row, Rows, Scalar, is_zero};
use std::alloc::Global;

/// The point in the class of a point and a unit vector: their sum, less the sides at which the
/// coordinates of the point and of the unit vector's own point together reach 1.
pub(crate) fn neighbour<T: Scalar>(
    alloc: Global,
    steps: &Steps<T>,
    point: &Row<T>,
    values: &Row<T>,
    column: usize,
) -> Result<Row<T>, Num>
    requires prepared { IsPrepared steps.now.sides.now steps.now.forms.now steps.now.divisors steps.now.units steps.now.values }
    requires width { HasWidth (length steps.now.sides.now) point.now }
    requires reduced { HasReducedValues (paired steps.now.forms.now steps.now.sides.now) point.now }
    requires values { values.now ≡ values_at steps.now.forms.now point.now }
    requires column { column < length steps.now.sides.now }
    ensures { MatchResult result (IsRestOf (length steps.now.sides.now) (paired steps.now.forms.now steps.now.sides.now) (plus point.now (unit_at (length steps.now.sides.now) column))) (IsCaused (unsigned_abs T.HALF) steps.now.sides.now steps.now.forms.now) }
{
    match carries(alloc, values, steps.values.at(column), &steps.divisors) {
        Ok(carries) => moved(alloc, steps.sides, point, steps.units.at(column), &carries),
        Err(refusal) => Err(refusal),
    }
}

/// For each form -1 where two values together reach the divisor, and else 0.
fn carries<T: Scalar>(
    alloc: Global,
    values: &Row<T>,
    more: &Row<T>,
    divisors: &Row<T>,
) -> Result<Row<T>, Num>
    requires more { length more.now ≡ length values.now }
    requires divisors { length divisors.now ≡ length values.now }
    ensures { MatchResult result (AreCarries values.now more.now divisors.now) (λ e. e ≡ Num.Range → HasPairOutside T.fits values.now more.now) }
{
    let mut carries = match Vec::with_capacity(alloc, values.len()) {
        Ok(carries) => carries,
        Err(_) => return Err(Num::NoMemory),
    };
    for place in 0..values.len() {
        match values.at(place).try_add(more.at(place)) {
            Some(sum) => carries.push_reserved(carry(sum, divisors.at(place))),
            None => return Err(Num::Range),
        }
    }
    Ok(Row::from_vec(carries))
}

fn carry<T: Scalar>(sum: T, divisor: T) -> T
    ensures { IsCarry (T.integer sum) (T.integer divisor) (T.integer result) }
{
    if is_below(sum, divisor) {
        T::of_i64(0)
    } else {
        T::of_i64(-1)
    }
}

/// The sum of two vectors and of the sides with their factors.
fn moved<T: Scalar>(
    alloc: Global,
    sides: &Rows<T>,
    first: &Row<T>,
    second: &Row<T>,
    factors: &Row<T>,
) -> Result<Row<T>, Num>
    requires second_width { length second.now ≡ length first.now }
    requires one_each { length factors.now ≡ length sides.now }
    requires wide { Each (HasWidth (length first.now)) sides.now }
    ensures { MatchResult result (λ y. y ≡ minus (plus first.now second.now) (combination (length first.now) (opposite factors.now) sides.now)) (λ e. e ≡ Num.Range → HasColumnOutside T.fits first.now second.now factors.now sides.now) }
{
    let mut entries = match Vec::with_capacity(alloc, first.len()) {
        Ok(entries) => entries,
        Err(_) => return Err(Num::NoMemory),
    };
    for column in 0..first.len() {
        match moved_entry(alloc, sides, first, second, factors, column) {
            Ok(entry) => entries.push_reserved(entry),
            Err(refusal) => return Err(refusal),
        }
    }
    Ok(Row::from_vec(entries))
}

/// Its entry at a column: the sum from the left where that stays inside the type, and else the terms
/// in balance.
fn moved_entry<T: Scalar>(
    alloc: Global,
    sides: &Rows<T>,
    first: &Row<T>,
    second: &Row<T>,
    factors: &Row<T>,
    column: usize,
) -> Result<T, Num>
    requires first_width { column < length first.now }
    requires second_width { length second.now ≡ length first.now }
    requires one_each { length factors.now ≡ length sides.now }
    requires wide { Each (HasWidth (length first.now)) sides.now }
    ensures { MatchResult result (λ s. T.integer s ≡ sum_of (column_terms first.now second.now factors.now sides.now column)) (λ e. e ≡ Num.Range → Each T.fits (column_terms first.now second.now factors.now sides.now column) → ¬ T.fits (sum_of (column_terms first.now second.now factors.now sides.now column))) }
{
    match left_entry(sides, first, second, factors, column) {
        Some(entry) => Ok(entry),
        None => balanced_entry(alloc, sides, first, second, factors, column),
    }
}

/// The entry by sums from the left, if these stay inside the type. It takes no memory.
fn left_entry<T: Scalar>(
    sides: &Rows<T>,
    first: &Row<T>,
    second: &Row<T>,
    factors: &Row<T>,
    column: usize,
) -> Option<T>
    requires first_width { column < length first.now }
    requires second_width { length second.now ≡ length first.now }
    requires one_each { length factors.now ≡ length sides.now }
    requires wide { Each (HasWidth (length first.now)) sides.now }
    ensures { IfSome result (λ s. T.integer s ≡ sum_of (column_terms first.now second.now factors.now sides.now column)) }
{
    let mut sum = match first.at(column).try_add(second.at(column)) {
        Some(sum) => sum,
        None => return None,
    };
    for place in 0..sides.len() {
        sum = match with_product(sum, factors.at(place), sides.at(place).at(column)) {
            Some(more) => more,
            None => return None,
        };
    }
    Some(sum)
}

/// The sum with one product more. Most factors are 0, and take none.
fn with_product<T: Scalar>(sum: T, factor: T, entry: T) -> Option<T>
    ensures { IfSome result (λ s. T.integer s ≡ T.integer sum +ℤ T.integer factor *ℤ T.integer entry) }
{
    if is_zero(factor) {
        return Some(sum);
    }
    match factor.try_mul(entry) {
        Some(product) => sum.try_add(product),
        None => None,
    }
}

/// The entry by terms in balance. These and their sum are small where those of points are, but not
/// the sums from the left.
fn balanced_entry<T: Scalar>(
    alloc: Global,
    sides: &Rows<T>,
    first: &Row<T>,
    second: &Row<T>,
    factors: &Row<T>,
    column: usize,
) -> Result<T, Num>
    requires first_width { column < length first.now }
    requires second_width { length second.now ≡ length first.now }
    requires one_each { length factors.now ≡ length sides.now }
    requires wide { Each (HasWidth (length first.now)) sides.now }
    ensures { MatchResult result (λ s. T.integer s ≡ sum_of (column_terms first.now second.now factors.now sides.now column)) (λ e. e ≡ Num.Range → Each T.fits (column_terms first.now second.now factors.now sides.now column) → ¬ T.fits (sum_of (column_terms first.now second.now factors.now sides.now column))) }
{
    let mut terms = Vec::new(alloc);
    match push(&mut terms, first.at(column)) {
        Ok(()) => {}
        Err(refusal) => return Err(Num::from(refusal)),
    }
    match push(&mut terms, second.at(column)) {
        Ok(()) => {}
        Err(refusal) => return Err(Num::from(refusal)),
    }
    match push_products(&mut terms, sides, factors, column) {
        Ok(()) => balanced_sum(alloc, terms.as_slice()),
        Err(refusal) => Err(refusal),
    }
}

fn push<T: Scalar>(terms: &mut Vec<T>, term: T) -> Result<(), NoMemory>
    ensures { OnOk result (map T.integer terms.new.items ≡ map T.integer terms.old.items ++ T.integer term ∷ []) }
{
    match terms.push(term) {
        Ok(()) => Ok(()),
        Err(_) => Err(NoMemory),
    }
}

/// Appends the products of the factors and the entries of the sides at a column.
fn push_products<T: Scalar>(
    terms: &mut Vec<T>,
    sides: &Rows<T>,
    factors: &Row<T>,
    column: usize,
) -> Result<(), Num>
    requires one_each { length factors.now ≡ length sides.now }
    requires wide { Each (λ v. column < length v) sides.now }
    ensures { MatchResult result (λ _. map T.integer terms.new.items ≡ map T.integer terms.old.items ++ products factors.now sides.now column) (λ e. e ≡ Num.Range → ¬ Each T.fits (products factors.now sides.now column)) }
{
    for place in 0..sides.len() {
        let product = match factors.at(place).try_mul(sides.at(place).at(column)) {
            Some(product) => product,
            None => return Err(Num::Range),
        };
        match push(terms, product) {
            Ok(()) => {}
            Err(refusal) => return Err(Num::from(refusal)),
        }
    }
    Ok(())
}
