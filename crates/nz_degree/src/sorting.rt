ghost use Rattle.std.specs.Prelude.{◌≡◌, ℤ, pos, length, map, IfOk, OnOk, OnErr, MatchResult, MatchOption, ⊤, option_map, Err, Some, None};
ghost use Rattle.std.specs.List.{AllByRecursion as Each};
ghost use Rattle.std.specs.List.Sorted.{IsPermutation};
ghost use Rattle.nz_spec.specs.Vectors.{Vector, HasWidth};
ghost use Rattle.nz_spec.specs.Order.{degree};
ghost use Rattle.nz_degree.specs.Degrees.{LacksDegree, IsInOrder};
ghost use Rattle.nz_degree.specs.Ranks.{AreRanked, Adds, IsSortedAs, row_of};

use crate::ranked::Ranked;
use nz_vec::{NoMemory, Num, Row, Rows, Scalar};
use std::alloc::Global;

/// Puts the rows into order: by degree where a grading is given, then lexicographically. A row
/// that stands in the list several times stays there as often. After an error nothing has moved.
pub fn sort<T: Scalar>(
    alloc: Global,
    list: &mut Rows<T>,
    grading: Option<&Row<T>>,
) -> Result<(), Num>
    requires { MatchOption grading ⊤ (λ g. Each (HasWidth (length g.now)) list.old) }
    ensures same { OnOk result (IsPermutation list.old list.new) }
    ensures order { OnOk result (MatchOption grading.entry (IsInOrder None list.new) (λ g. IsInOrder (Some g.now) list.new)) }
    ensures refused { OnErr result (list.new ≡ list.old) }
    ensures range { result ≡ Err Num.Range → MatchOption grading.entry ⊥ (λ g. LacksDegree T.fits g.now list.old) }
{
    match grading {
        Some(grading) => {
            let ranked = graded(alloc, list, grading)?;
            Ok(put_sorted(alloc, list, ranked)?)
        }
        None => {
            let ranked = ungraded(alloc, list)?;
            Ok(put_sorted(alloc, list, ranked)?)
        }
    }
}

// Each row with its degree.
fn graded<T: Scalar>(alloc: Global, list: &Rows<T>, grading: &Row<T>) -> Result<Vec<Ranked<T>>, Num>
    requires { Each (HasWidth (length grading.now)) list.now }
    ensures { MatchResult result (λ v. AreRanked T.integer (degree grading.now) list.now v.items) (λ e. e ≡ Num.Range → LacksDegree T.fits grading.now list.now) }
{
    let mut ranked = Vec::new(alloc);
    for place in 0..list.len() {
        let row = list.at(place);
        let degree = match grading.dot(row) {
            Some(degree) => degree,
            None => return Err(Num::Range),
        };
        add(&mut ranked, row, degree)?;
    }
    Ok(ranked)
}

// Each row with the degree 0.
fn ungraded<T: Scalar>(alloc: Global, list: &Rows<T>) -> Result<Vec<Ranked<T>>, NoMemory>
    ensures { IfOk result (λ v. AreRanked T.integer (λ _. pos 0) list.now v.items) }
{
    let mut ranked = Vec::new(alloc);
    for place in 0..list.len() {
        add(&mut ranked, list.at(place), T::of_i64(0))?;
    }
    Ok(ranked)
}

fn add<T: Scalar>(ranked: &mut Vec<Ranked<T>>, row: &Row<T>, degree: T) -> Result<(), NoMemory>
    ensures { OnOk result (Adds T.integer ranked.old.items ranked.new.items row.now degree) }
{
    let entries = row.try_copy()?.into_vec();
    match ranked.push(Ranked { degree, entries }) {
        Ok(()) => Ok(()),
        Err(_) => Err(NoMemory),
    }
}

// Puts the rows in the place of the list, sorted.
fn put_sorted<T: Scalar>(
    alloc: Global,
    list: &mut Rows<T>,
    ranked: Vec<Ranked<T>>,
) -> Result<(), NoMemory>
    ensures ok { OnOk result (IsSortedAs T.integer ranked.items list.new) }
    ensures err { OnErr result (list.new ≡ list.old) }
{
    let sorted = sorted_rows(alloc, ranked)?;
    *list = sorted;
    Ok(())
}

fn sorted_rows<T: Scalar>(alloc: Global, mut ranked: Vec<Ranked<T>>) -> Result<Rows<T>, NoMemory>
    ensures { IfOk result (IsSortedAs T.integer ranked.items) }
{
    match ranked.sort() {
        Ok(()) => rows_of(alloc, ranked),
        Err(_) => Err(NoMemory),
    }
}

fn rows_of<T: Scalar>(alloc: Global, ranked: Vec<Ranked<T>>) -> Result<Rows<T>, NoMemory>
    ensures { IfOk result (λ rows. map (row_of T.integer) ranked.items ≡ rows) }
{
    let mut rows = Rows::new(alloc);
    for entry in ranked {
        rows.push(Row::from_vec(entry.entries))?;
    }
    Ok(rows)
}
