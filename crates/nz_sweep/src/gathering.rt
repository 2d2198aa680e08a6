// What clearing makes of the coordinate at the pivot: it gathers the others', as often as it is
// taken from their vectors.
ghost use Rattle.std.specs.Prelude.{◌≡◌, ◌≢◌, ◌+◌, ◌<◌, ◌<ℤ◌, pos, length, unsigned_abs, IfOk, MatchOption, MatchResult};
ghost use Rattle.nz_spec.specs.Vectors.{entry};
ghost use Rattle.nz_scalar.specs.Division.{IsFloorQuotient};
ghost use Rattle.nz_sweep.specs.Clearing.{values_of, vectors_of};
ghost use Rattle.nz_sweep.specs.Duals.{AreDual, IsGathered, IsJoined};
ghost use Rattle.nz_sweep.specs.Numbers.{SomeNumberLarge, IsTakingNumber, IsRoundNumber};
ghost use Rattle.nz_sweep.specs.Rounds.{Gathers, IsTakenIn};

use crate::coordinates::{Coordinate, copied, lowest};
use crate::floors::floor;
use crate::valued::{Valued, is_zero};
use nz_vec::{Num, Row, Scalar};
use std::alloc::Global;

/// The coordinate at the pivot once all others are reduced by it.
pub(crate) fn gathered<T: Scalar>(
    alloc: Global,
    width: usize,
    list: &[Valued<T>],
    coordinates: &[Coordinate<T>],
    place: usize,
) -> Result<Coordinate<T>, Num>
    requires inside { place < length list.now }
    requires nonzero { entry (values_of list.now) place ≢ pos 0 }
    requires one_each { length coordinates.now ≡ length list.now }
    requires dual { AreDual width (vectors_of list.now) coordinates.now }
    ensures gathered { IfOk result (IsGathered width list.now place (length list.now)) }
    ensures state { MatchResult result (Gathers (record { valued = list.now; coordinates = coordinates.now }) place (length list.now)) (λ e. e ≡ Num.Range → SomeNumberLarge T.HALF (IsRoundNumber (record { valued = list.now; coordinates = coordinates.now }) place)) }
{
    let mut own = match copied(&coordinates[place]) {
        Ok(own) => own,
        Err(refusal) => return Err(Num::from(refusal)),
    };
    for index in 0..list.len() {
        own = match gathered_one(alloc, width, list, coordinates, place, index, own) {
            Ok(own) => own,
            Err(refusal) => return Err(refusal),
        };
    }
    Ok(own)
}

// The same once one vector more is reduced.
fn gathered_one<T: Scalar>(
    alloc: Global,
    width: usize,
    list: &[Valued<T>],
    coordinates: &[Coordinate<T>],
    place: usize,
    index: usize,
    own: Coordinate<T>,
) -> Result<Coordinate<T>, Num>
    requires inside { place < length list.now }
    requires index { index < length list.now }
    requires nonzero { entry (values_of list.now) place ≢ pos 0 }
    requires one_each { length coordinates.now ≡ length list.now }
    requires dual { AreDual width (vectors_of list.now) coordinates.now }
    requires so_far { IsGathered width list.now place index own }
    requires state { Gathers (record { valued = list.now; coordinates = coordinates.now }) place index own }
    ensures gathered { IfOk result (IsGathered width list.now place (index + 1)) }
    ensures state { MatchResult result (Gathers (record { valued = list.now; coordinates = coordinates.now }) place (index + 1)) (λ e. e ≡ Num.Range → SomeNumberLarge T.HALF (IsRoundNumber (record { valued = list.now; coordinates = coordinates.now }) place)) }
{
    if index == place {
        return Ok(own);
    }
    if is_zero(&list[index]) {
        return Ok(own);
    }
    let quotient = match quotient(&list[index], &list[place]) {
        Some(quotient) => quotient,
        None => return Err(Num::Range),
    };
    joined(alloc, quotient, &own, &coordinates[index])
}

// How often the value of `own` goes into that of another.
fn quotient<T: Scalar>(other: &Valued<T>, own: &Valued<T>) -> Option<T>
    requires { own.now.value ≢ pos 0 }
    ensures { MatchOption result (T.HALF <ℤ pos (unsigned_abs other.now.value)) (λ q. IsFloorQuotient other.now.value own.now.value (T.integer q)) }
{
    other.value.floor_div(own.value)
}

// The sum of `own` and the quotient times another, over the least common multiple of their divisors.
fn joined<T: Scalar>(
    alloc: Global,
    quotient: T,
    own: &Coordinate<T>,
    other: &Coordinate<T>,
) -> Result<Coordinate<T>, Num>
    requires own { pos 0 <ℤ own.now.divisor }
    requires other { pos 0 <ℤ other.now.divisor }
    requires width { length own.now.form ≡ length other.now.form }
    ensures joined { IfOk result (IsJoined (T.integer quotient) own.now other.now) }
    ensures taken { MatchResult result (IsTakenIn (T.integer quotient) own.now other.now) (λ e. e ≡ Num.Range → SomeNumberLarge T.HALF (IsTakingNumber (T.integer quotient) own.now other.now)) }
{
    let common = match own.divisor.gcd(other.divisor) {
        Some(common) => common,
        None => return Err(Num::Range),
    };
    let first = floor(other.divisor, common);
    let second = floor(own.divisor, common);
    let divisor = match first.try_mul(own.divisor) {
        Some(divisor) => divisor,
        None => return Err(Num::Range),
    };
    let factor = match quotient.try_mul(second) {
        Some(factor) => factor,
        None => return Err(Num::Range),
    };
    match Row::combine(alloc, first, &own.form, factor, &other.form) {
        Ok(form) => lowest(alloc, &form, divisor),
        Err(refusal) => Err(refusal),
    }
}
