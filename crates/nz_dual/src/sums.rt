// The sums of one vector of each side, in the order of their degrees.
ghost use Rattle.std.specs.Prelude.{◌≡◌, ◌∷◌, ◌++◌, [], ℕ, ◌<◌, ◌+◌, ◌^◌, length, slice_index, slice_index_or, Contains, MatchResult};
ghost use Rattle.std.specs.List.{AllByRecursion as Each};
ghost use Rattle.nz_spec.specs.Vectors.{plus};
ghost use Rattle.nz_range.specs.Measures.{SomeLarge};
ghost use Rattle.nz_dual.specs.PairSums.{IsAhead, IsNotSooner, IsSooner, IsNext, IsWith, HaveDegrees, HaveSumFrom, AddsSums, AreSums};
ghost use Rattle.nz_dual.specs.Closures.{AreParts, IsSettled};

use crate::pairs::is_settled;
use crate::sides::Side;
use nz_vec::{Num, Row, Rows, Scalar};
use std::alloc::Global;

/// The lesser of a degree and the best so far, where the degree is above the last.
fn sooner(degree: u128, last: u128, best: Option<u128>) -> Option<u128>
    ensures { IsSooner last best degree result }
{
    if degree <= last {
        return best;
    }
    match best {
        Some(held) => { if held <= degree { best } else { Some(degree) } }
        None => Some(degree),
    }
}

/// The best degree, after the sums of one degree with each of others.
fn soonest_with(degree: u128, others: &[u128], last: u128, mut best: Option<u128>) -> Option<u128>
    requires degree { degree < 2 ^ 127 }
    requires others { Each (λ d. d < 2 ^ 127) others.now }
    ensures ahead { IsAhead last best → IsAhead last result }
    ensures seen { Each (λ d. IsNotSooner last result (degree + d)) others.now }
    ensures earlier { (d : ℕ) → IsNotSooner last best d → IsNotSooner last result d }
{
    for place in 0..others.len() {
        best = sooner(degree + others[place], last, best);
    }
    best
}

/// The least sum of one degree of each list that is above the last.
pub(crate) fn next_degree(firsts: &[u128], seconds: &[u128], last: u128) -> Option<u128>
    requires firsts { Each (λ d. d < 2 ^ 127) firsts.now }
    requires seconds { Each (λ d. d < 2 ^ 127) seconds.now }
    ensures { IsNext last firsts.now seconds.now result }
{
    let mut best = None;
    for place in 0..firsts.len() {
        best = soonest_with(firsts[place], seconds, last, best);
    }
    best
}

/// The sums of this degree of two elements, one of each side and both rising there, but for some that
/// neither side needs. Only classes of degrees with this sum are looked at.
pub(crate) fn sums_of<T: Scalar>(
    alloc: Global,
    rows: &Rows<T>,
    up: &mut Side<T>,
    down: &mut Side<T>,
    wanted: u128,
) -> Result<Rows<T>, Num>
    requires { AreParts rows.now up.old down.old }
    ensures same { (up.new ≡ up.old) × (down.new ≡ down.old) }
    ensures sums { MatchResult result (AreSums (IsSettled rows.now up.old down.old) up.old.rising up.old.degrees down.old.rising down.old.degrees wanted) (λ e. e ≡ Num.Range → SomeLarge T.HALF (Contains (up.old.rising ++ down.old.rising))) }
{
    let mut sums = Rows::new(alloc);
    for class in 0..up.class_count() {
        match add_sums(alloc, rows, up, down, class, wanted, &mut sums) {
            Ok(()) => {}
            Err(refusal) => return Err(refusal),
        }
    }
    Ok(sums)
}

/// Appends the sums of this degree of an element of one class and those of the other side.
fn add_sums<T: Scalar>(
    alloc: Global,
    rows: &Rows<T>,
    up: &mut Side<T>,
    down: &mut Side<T>,
    first: usize,
    wanted: u128,
    sums: &mut Rows<T>,
) -> Result<(), Num>
    requires part { AreParts rows.now up.old down.old }
    requires first { first < length up.old.classes }
    ensures same { (up.new ≡ up.old) × (down.new ≡ down.old) }
    ensures sums { MatchResult result (λ _. AddsSums (IsSettled rows.now up.old down.old) up.old.rising down.old.rising (HaveSumFrom up.old.degrees (slice_index up.old.classes first) down.old.degrees wanted) sums.old sums.new) (λ e. e ≡ Num.Range → SomeLarge T.HALF (Contains (up.old.rising ++ down.old.rising))) }
{
    for second in 0..down.class_count() {
        if up.class_degree(first) + down.class_degree(second) != wanted {
            continue;
        }
        match add_class_sums(alloc, rows, up, down, first, second, sums) {
            Ok(()) => {}
            Err(refusal) => return Err(refusal),
        }
    }
    Ok(())
}

/// Appends the sums of the elements of two classes.
fn add_class_sums<T: Scalar>(
    alloc: Global,
    rows: &Rows<T>,
    up: &mut Side<T>,
    down: &mut Side<T>,
    first: usize,
    second: usize,
    sums: &mut Rows<T>,
) -> Result<(), Num>
    requires part { AreParts rows.now up.old down.old }
    requires first { first < length up.old.classes }
    requires second { second < length down.old.classes }
    ensures same { (up.new ≡ up.old) × (down.new ≡ down.old) }
    ensures sums { MatchResult result (λ _. AddsSums (IsSettled rows.now up.old down.old) up.old.rising down.old.rising (HaveDegrees up.old.degrees (slice_index up.old.classes first) down.old.degrees (slice_index down.old.classes second)) sums.old sums.new) (λ e. e ≡ Num.Range → SomeLarge T.HALF (Contains (up.old.rising ++ down.old.rising))) }
{
    let mut end = up.end_of(first);
    'places: while end > 0 {
        match add_sums_with(alloc, rows, up, down, end - 1, second, sums) {
            Ok(()) => {}
            Err(refusal) => return Err(refusal),
        }
        end = up.end_before(end - 1);
    }
    Ok(())
}

/// Appends the sums of one rising element and those of a class of the other side.
fn add_sums_with<T: Scalar>(
    alloc: Global,
    rows: &Rows<T>,
    up: &mut Side<T>,
    down: &mut Side<T>,
    first: usize,
    class: usize,
    sums: &mut Rows<T>,
) -> Result<(), Num>
    requires part { AreParts rows.now up.old down.old }
    requires first { first < length up.old.rising }
    requires class { class < length down.old.classes }
    ensures same { (up.new ≡ up.old) × (down.new ≡ down.old) }
    ensures sums { MatchResult result (λ _. AddsSums (IsSettled rows.now up.old down.old) up.old.rising down.old.rising (IsWith first down.old.degrees (slice_index down.old.classes class)) sums.old sums.new) (λ e. e ≡ Num.Range → SomeLarge T.HALF (Contains (up.old.rising ++ down.old.rising))) }
{
    let mut end = down.end_of(class);
    'places: while end > 0 {
        match add_sum_at(alloc, rows, up, down, first, end - 1, sums) {
            Ok(()) => {}
            Err(refusal) => return Err(refusal),
        }
        end = down.end_before(end - 1);
    }
    Ok(())
}

/// Appends the sum of two rising elements, unless neither side needs it.
fn add_sum_at<T: Scalar>(
    alloc: Global,
    rows: &Rows<T>,
    up: &mut Side<T>,
    down: &mut Side<T>,
    first: usize,
    second: usize,
    sums: &mut Rows<T>,
) -> Result<(), Num>
    requires part { AreParts rows.now up.old down.old }
    requires first { first < length up.old.rising }
    requires second { second < length down.old.rising }
    ensures same { (up.new ≡ up.old) × (down.new ≡ down.old) }
    ensures sums { MatchResult result (λ _. AddsSums (IsSettled rows.now up.old down.old) up.old.rising down.old.rising (λ i k. (i ≡ first) × (k ≡ second)) sums.old sums.new) (λ e. e ≡ Num.Range → SomeLarge T.HALF (Contains (up.old.rising ++ down.old.rising))) }
{
    if is_settled(alloc, rows, up, down, first, second) {
        return Ok(());
    }
    add_sum(alloc, sums, up.rising_at(first), down.rising_at(second))
}

/// Appends the sum of two vectors.
fn add_sum<T: Scalar>(alloc: Global, sums: &mut Rows<T>, x: &Row<T>, y: &Row<T>) -> Result<(), Num>
    requires { length x.now ≡ length y.now }
    ensures { MatchResult result (λ _. sums.new ≡ sums.old ++ plus x.now y.now ∷ []) (λ e. e ≡ Num.Range → SomeLarge T.HALF (Contains (x.now ∷ y.now ∷ []))) }
{
    let one = T::of_i64(1);
    let sum = match Row::combine(alloc, one, x, one, y) {
        Ok(sum) => sum,
        Err(refusal) => return Err(refusal),
    };
    match sums.push(sum) {
        Ok(()) => Ok(()),
        Err(refusal) => Err(Num::from(refusal)),
    }
}
