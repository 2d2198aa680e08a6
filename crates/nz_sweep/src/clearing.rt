// Clearing: the vectors of a base are taken from one another until all but one have the value 0.
ghost use Rattle.std.specs.Prelude.{◌≡◌, ◌≢◌, ◌∷◌, [], pos, length, IfOk, MatchResult};
ghost use Rattle.std.specs.List.{AllByRecursion as Each, AllZip, insert};
ghost use Rattle.nz_spec.specs.Vectors.{HasWidth};
ghost use Rattle.nz_sweep.specs.Clearing.{Valued as ValuedVector, values_of, vectors_of, IsPivot, IsReduced, IsCleared};
ghost use Rattle.nz_sweep.specs.Duals.{AreDual};
ghost use Rattle.nz_sweep.specs.Numbers.{SomeNumberLarge, IsOfValued, IsClearingNumber};
ghost use Rattle.nz_sweep.specs.Rounds.{Leads};

use crate::coordinates::Coordinate;
use crate::gathering::gathered;
use crate::pivots::{are_zero, least};
use crate::valued::Valued;
use nz_vec::{Num, Row, Scalar};
use std::alloc::Global;

/// A cleared base: a vector with a value other than 0, its place, the others, whose values are 0,
/// and the coordinates of all.
#[derive(Drop)]
pub(crate) struct Cleared<T: Scalar> {
    pub(crate) place: usize,
    pub(crate) own: Valued<T>,
    pub(crate) others: Vec<Valued<T>>,
    pub(crate) coordinates: Vec<Coordinate<T>>,
}

/// Clears a list, one pivot after the other clearing all others, from the one at this place on.
pub(crate) fn clear_all<T: Scalar>(
    alloc: Global,
    width: usize,
    list: Vec<Valued<T>>,
    coordinates: Vec<Coordinate<T>>,
    place: usize,
) -> Result<Cleared<T>, Num>
    requires pivot { IsPivot (values_of list.items) (length list.items) place }
    requires widths { Each (HasWidth width) (vectors_of list.items) }
    requires dual { AreDual width (vectors_of list.items) coordinates.items }
    ensures cleared { IfOk result (λ c. IsCleared list.items c.place c.own c.others.items) }
    ensures dual { IfOk result (λ c. AreDual width (vectors_of (insert c.others.items c.place c.own)) c.coordinates.items) }
    ensures state { MatchResult result (λ c. Leads (record { valued = list.items; coordinates = coordinates.items }) (record { valued = insert c.others.items c.place c.own; coordinates = c.coordinates.items })) (λ e. e ≡ Num.Range → SomeNumberLarge T.HALF (IsClearingNumber (record { valued = list.items; coordinates = coordinates.items }))) }
{
    let mut list = list;
    let mut coordinates = coordinates;
    let mut place = place;
    'rounds: loop {
        let joint = match gathered(alloc, width, list.as_slice(), coordinates.as_slice(), place) {
            Ok(joint) => joint,
            Err(refusal) => return Err(refusal),
        };
        coordinates[place] = joint;
        let own = list.remove(place);
        let mut others = match reduced_all(alloc, width, &own, list.as_slice()) {
            Ok(others) => others,
            Err(refusal) => return Err(refusal),
        };
        if are_zero(others.as_slice()) {
            return Ok(Cleared {
                place,
                own,
                others,
                coordinates,
            });
        }
        match others.insert(place, own) {
            Ok(()) => {}
            Err(_) => return Err(Num::NoMemory),
        }
        place = match least(others.as_slice()) {
            Some(next) => next,
            None => unreachable!(),
        };
        list = others;
    }
}

// Each vector reduced by `own`.
pub(crate) fn reduced_all<T: Scalar>(
    alloc: Global,
    width: usize,
    own: &Valued<T>,
    others: &[Valued<T>],
) -> Result<Vec<Valued<T>>, Num>
    requires nonzero { own.now.value ≢ pos 0 }
    requires width { HasWidth width own.now.vector }
    requires widths { Each (HasWidth width) (vectors_of others.now) }
    ensures { MatchResult result (λ v. AllZip (IsReduced own.now) others.now v.items) (λ e. e ≡ Num.Range → SomeNumberLarge T.HALF (IsOfValued (own.now ∷ others.now))) }
{
    let mut all = match Vec::with_capacity(alloc, others.len()) {
        Ok(all) => all,
        Err(_) => return Err(Num::NoMemory),
    };
    for place in 0..others.len() {
        match reduced(alloc, own, &others[place]) {
            Ok(other) => all.push_reserved(other),
            Err(refusal) => return Err(refusal),
        }
    }
    Ok(all)
}

// One vector reduced: it keeps of its value the remainder by that of `own`.
fn reduced<T: Scalar>(alloc: Global, own: &Valued<T>, other: &Valued<T>) -> Result<Valued<T>, Num>
    requires nonzero { own.now.value ≢ pos 0 }
    requires width { length other.now.vector ≡ length own.now.vector }
    ensures { MatchResult result (IsReduced own.now other.now) (λ e. e ≡ Num.Range → SomeNumberLarge T.HALF (IsOfValued (own.now ∷ other.now ∷ []))) }
{
    let quotient = match other.value.floor_div(own.value) {
        Some(quotient) => quotient,
        None => return Err(Num::Range),
    };
    let taken = match quotient.try_mul(own.value) {
        Some(taken) => taken,
        None => return Err(Num::Range),
    };
    let value = match other.value.try_sub(taken) {
        Some(value) => value,
        None => return Err(Num::Range),
    };
    let factor = match T::of_i64(0).try_sub(quotient) {
        Some(factor) => factor,
        None => return Err(Num::Range),
    };
    match Row::combine(alloc, T::of_i64(1), &other.row, factor, &own.row) {
        Ok(row) => Ok(Valued { row, value }),
        Err(refusal) => Err(refusal),
    }
}
