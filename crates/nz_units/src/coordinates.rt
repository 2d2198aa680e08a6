// To the coordinates of a list of vectors, and back.
ghost use Rattle.std.specs.Prelude.{◌≡◌, length, map, Contains, IfOk, MatchResult};
ghost use Rattle.std.specs.List.{AllByRecursion as Each};
ghost use Rattle.nz_spec.specs.Vectors.{combination, unit_vectors, values_at, HasWidth};
ghost use Rattle.nz_vec.specs.Sums.{HasValueOutside};
ghost use Rattle.nz_sweep.specs.Numbers.{SomeNumberLarge};
ghost use Rattle.nz_units.specs.UnitNumbers.{IsReturnNumber};

use nz_vec::{NoMemory, Num, Rows, Scalar, units};
use std::alloc::Global;

/// The values of the forms at each of the vectors. Since a vector has at a form the value that the
/// form has at it, these are also the forms at the second place in the coordinates of the vectors at
/// the first.
pub(crate) fn all_values<T: Scalar>(
    alloc: Global,
    forms: &Rows<T>,
    vectors: &Rows<T>,
) -> Result<Rows<T>, Num>
    requires { Each (λ x. Each (HasWidth (length x)) forms.now) vectors.now }
    ensures { MatchResult result (λ r. r ≡ map (λ x. values_at forms.now x) vectors.now) (λ e. e ≡ Num.Range → HasValueOutside T.fits forms.now vectors.now) }
{
    let mut list = Rows::new(alloc);
    for place in 0..vectors.len() {
        let values = match forms.values_at(vectors.at(place)) {
            Ok(values) => values,
            Err(refusal) => return Err(refusal),
        };
        match list.push(values) {
            Ok(()) => {}
            Err(refusal) => return Err(Num::from(refusal)),
        }
    }
    Ok(list)
}

/// The vectors with these coordinates in the list. Range comes only where an entry of the list, or for
/// one of the vectors and one column the sum of the sizes of the products, is above `HALF`.
pub(crate) fn taken_back<T: Scalar>(
    alloc: Global,
    width: usize,
    list: &Rows<T>,
    coordinates: &Rows<T>,
) -> Result<Rows<T>, Num>
    requires vectors { Each (HasWidth width) list.now }
    requires coordinates { Each (HasWidth (length list.now)) coordinates.now }
    ensures { MatchResult result (λ r. r ≡ map (λ c. combination width c list.now) coordinates.now) (λ e. e ≡ Num.Range → SomeNumberLarge T.HALF (IsReturnNumber list.now (Contains coordinates.now))) }
{
    let forms = match unit_forms(alloc, width) {
        Ok(forms) => forms,
        Err(refusal) => return Err(Num::from(refusal)),
    };
    let columns = match all_values(alloc, list, &forms) {
        Ok(columns) => columns,
        Err(refusal) => return Err(refusal),
    };
    match all_values(alloc, &columns, coordinates) {
        Ok(vectors) => Ok(vectors),
        Err(refusal) => Err(refusal),
    }
}

// The unit vectors, as forms.
fn unit_forms<T: Scalar>(alloc: Global, width: usize) -> Result<Rows<T>, NoMemory>
    ensures { IfOk result (λ r. r ≡ unit_vectors width) }
{
    match units(alloc, width) {
        Ok(forms) => Ok(Rows::from_vec(forms)),
        Err(refusal) => Err(refusal),
    }
}
