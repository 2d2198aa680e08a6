// A base of the group that rows generate, in echelon form.
ghost use Rattle.std.specs.Prelude.{◌≡◌, ◌+◌, ◌<◌, List, ◌++◌, length, ℤ, pos, IfOk, MatchOption, MatchResult};
ghost use Rattle.std.specs.List.{AllByRecursion as Each, AllZip};
ghost use Rattle.nz_spec.specs.Vectors.{Vector, dot, HasWidth};
ghost use Rattle.nz_sweep.specs.Clearing.{Valued as ValuedVector, values_of, vectors_of, IsPivot, AreRounds, IsCleared};
ghost use Rattle.nz_sweep.specs.Duals.{AreDual};
ghost use Rattle.nz_sweep.specs.Generating.{AreSetApart};
ghost use Rattle.nz_sweep.specs.GroupConstraints.{IsDualCoordinate};
ghost use Rattle.nz_sweep.specs.Numbers.{SomeNumberLarge, IsOfValued, IsColumnNumber, IsGeneratingNumber};
ghost use Rattle.nz_sweep.specs.Takings.{IsTakenAt, IsTakenNumber};

use crate::bottom::{dual_coordinates, leading_columns};
use crate::clearing::reduced_all;
use crate::cutting::DualBase;
use crate::pivots::{are_zero, least};
use crate::valued::{Valued, rows, with_values};
use nz_vec::{NoMemory, Num, Row, Rows, Scalar, unit};
use std::alloc::Global;

// A cleared list: a row with a value other than 0, its place, and the others, whose values are 0.
#[derive(Drop)]
struct ClearedRows<T: Scalar> {
    place: usize,
    own: Valued<T>,
    others: Vec<Valued<T>>,
}

/// What clearing at a form leaves: the vector with a value other than 0, and the others.
#[derive(Drop)]
pub struct Taken<T: Scalar> {
    pub own: Row<T>,
    pub value: T,
    pub others: Vec<Row<T>>,
}

// The rows set apart so far, and those left.
#[derive(Drop)]
struct Apart<T: Scalar> {
    base: Vec<Row<T>>,
    left: Vec<Row<T>>,
}

/// A base of the group of the rows, with its coordinates.
pub(crate) fn generated<T: Scalar>(
    alloc: Global,
    width: usize,
    rows: &Rows<T>,
) -> Result<DualBase<T>, Num>
    requires { Each (HasWidth width) rows.now }
    ensures apart { MatchResult result (λ b. AreSetApart width 0 rows.now b.base.items) (λ e. e ≡ Num.Range → SomeNumberLarge T.HALF (IsGeneratingNumber width rows.now)) }
    ensures dual { IfOk result (λ b. AreDual width b.base.items b.coordinates.items) }
    ensures forms { IfOk result (λ b. AllZip (IsDualCoordinate width b.base.items) b.base.items b.coordinates.items) }
{
    let list = match listed(alloc, rows) {
        Ok(list) => list,
        Err(refusal) => return Err(Num::from(refusal)),
    };
    let base = match set_apart(alloc, width, list) {
        Ok(base) => base,
        Err(refusal) => return Err(refusal),
    };
    let columns = match leading_columns(alloc, base.as_slice()) {
        Ok(columns) => columns,
        Err(refusal) => return Err(Num::from(refusal)),
    };
    match dual_coordinates(alloc, width, base.as_slice(), columns.as_slice()) {
        Ok(coordinates) => Ok(DualBase { base, coordinates }),
        Err(refusal) => Err(refusal),
    }
}

fn listed<T: Scalar>(alloc: Global, rows: &Rows<T>) -> Result<Vec<Row<T>>, NoMemory>
    ensures { IfOk result (λ v. v.items ≡ rows.now) }
{
    let mut list = match Vec::with_capacity(alloc, rows.len()) {
        Ok(list) => list,
        Err(_) => return Err(NoMemory),
    };
    for place in 0..rows.len() {
        match rows.at(place).try_copy() {
            Ok(row) => list.push_reserved(row),
            Err(refusal) => return Err(refusal),
        }
    }
    Ok(list)
}

// The rows that are set apart column by column.
fn set_apart<T: Scalar>(alloc: Global, width: usize, rows: Vec<Row<T>>) -> Result<Vec<Row<T>>, Num>
    requires { Each (HasWidth width) rows.items }
    ensures { MatchResult result (λ b. AreSetApart width 0 rows.items b.items) (λ e. e ≡ Num.Range → SomeNumberLarge T.HALF (IsColumnNumber width 0 rows.items)) }
{
    let mut apart = Apart {
        base: Vec::new(alloc),
        left: rows,
    };
    for column in 0..width {
        apart = match set_one_apart(alloc, width, apart, column) {
            Ok(apart) => apart,
            Err(refusal) => return Err(refusal),
        };
    }
    Ok(apart.base)
}

// One column more: its entries are cleared, and the row that is left with one is set apart.
fn set_one_apart<T: Scalar>(
    alloc: Global,
    width: usize,
    apart: Apart<T>,
    column: usize,
) -> Result<Apart<T>, Num>
    requires inside { column < width }
    requires widths { Each (HasWidth width) apart.left.items }
    ensures widths { IfOk result (λ a. Each (HasWidth width) a.left.items) }
    ensures apart { IfOk result (λ a. (rest : List Vector) → AreSetApart width (column + 1) a.left.items rest → (more : List Vector) × AreSetApart width column apart.left.items more × (apart.base.items ++ more ≡ a.base.items ++ rest)) }
    ensures numbers { MatchResult result (λ a. (n : ℤ) → IsColumnNumber width (column + 1) a.left.items n → IsColumnNumber width column apart.left.items n) (λ e. e ≡ Num.Range → SomeNumberLarge T.HALF (IsColumnNumber width column apart.left.items)) }
{
    let Apart { mut base, left } = apart;
    let form = match unit(alloc, width, column) {
        Ok(form) => form,
        Err(refusal) => return Err(Num::from(refusal)),
    };
    let list = match with_values(alloc, left.as_slice(), &form) {
        Ok(list) => list,
        Err(refusal) => return Err(refusal),
    };
    let place = match least(list.as_slice()) {
        Some(place) => place,
        None => return Ok(Apart { base, left }),
    };
    let cleared = match clear_rows(alloc, width, list, place) {
        Ok(cleared) => cleared,
        Err(refusal) => return Err(refusal),
    };
    let ClearedRows { own, others, .. } = cleared;
    match base.push(own.row) {
        Ok(()) => {}
        Err(_) => return Err(Num::NoMemory),
    }
    match rows(alloc, others) {
        Ok(left) => Ok(Apart { base, left }),
        Err(refusal) => Err(refusal),
    }
}

// Clears a list as the cuts do, where no coordinates are kept.
fn clear_rows<T: Scalar>(
    alloc: Global,
    width: usize,
    list: Vec<Valued<T>>,
    place: usize,
) -> Result<ClearedRows<T>, Num>
    requires pivot { IsPivot (values_of list.items) (length list.items) place }
    requires widths { Each (HasWidth width) (vectors_of list.items) }
    ensures { MatchResult result (λ c. IsCleared list.items c.place c.own c.others.items) (λ e. e ≡ Num.Range → SomeNumberLarge T.HALF (λ n. (moment : List ValuedVector) × AreRounds list.items moment × IsOfValued moment n)) }
{
    let mut list = list;
    let mut place = place;
    'rounds: loop {
        let own = list.remove(place);
        let mut others = match reduced_all(alloc, width, &own, list.as_slice()) {
            Ok(others) => others,
            Err(refusal) => return Err(refusal),
        };
        if are_zero(others.as_slice()) {
            return Ok(ClearedRows { place, own, others });
        }
        match others.insert(place, own) {
            Ok(()) => {}
            Err(_) => return Err(Num::NoMemory),
        }
        place = match least(others.as_slice()) {
            Some(next) => next,
            None => unreachable!(),
        };
        list = others;
    }
}

/// Clears the vectors at the form, as the cuts do, where no coordinates are kept, and takes out the
/// one that is left with a value. None exactly where the form is 0 at all. Range comes only where the
/// sum of the sizes of the products of the form and a vector, or at a moment of clearing an entry or
/// a value of a vector, is above `HALF`.
pub fn take_out<T: Scalar>(
    alloc: Global,
    form: &Row<T>,
    vectors: &[Row<T>],
) -> Result<Option<Taken<T>>, Num>
    requires { Each (HasWidth (length form.now)) vectors.now }
    ensures { MatchResult result (λ o. MatchOption o (Each (λ v. dot form.now v ≡ pos 0) vectors.now) (λ t. IsTakenAt form.now vectors.now t.own (T.integer t.value) t.others.items)) (λ e. e ≡ Num.Range → SomeNumberLarge T.HALF (IsTakenNumber form.now vectors.now)) }
{
    let list = match with_values(alloc, vectors, form) {
        Ok(list) => list,
        Err(refusal) => return Err(refusal),
    };
    let place = match least(list.as_slice()) {
        Some(place) => place,
        None => return Ok(None),
    };
    let cleared = match clear_rows(alloc, form.len(), list, place) {
        Ok(cleared) => cleared,
        Err(refusal) => return Err(refusal),
    };
    let ClearedRows { own, others, .. } = cleared;
    let Valued { row, value } = own;
    match rows(alloc, others) {
        Ok(others) => Ok(Some(Taken {
            own: row,
            value,
            others,
        })),
        Err(refusal) => Err(refusal),
    }
}
