// The forms of a shadow, from the rays with their levels in front.
ghost use Rattle.std.specs.Prelude.{◌≡◌, ◌≤◌, length, ◌++◌, map, IfOk, IfErr, MatchResult, Contains};
ghost use Rattle.std.specs.List.{AllByRecursion as Each};
ghost use Rattle.nz_spec.specs.Vectors.{opposite};
ghost use Rattle.nz_range.specs.Measures.{SomeLarge};
ghost use Rattle.nz_pointed.specs.Pointed.{IsTooLarge};
ghost use Rattle.nz_lift.specs.Directions.{fronts, AreFormsOf};

use crate::vectors::front;
use nz_facets::describe;
use nz_pointed::opposite;
use nz_vec::{NoMemory, Num, Rows, Scalar};
use std::alloc::Global;

/// The support forms of the first entries of the vectors, as many as this size, and their equations
/// with both signs. Range comes only where a normal form of these, or one of these at one, has a
/// measure above `HALF`.
pub(crate) fn forms_of<T: Scalar>(
    alloc: Global,
    vectors: &Rows<T>,
    size: usize,
) -> Result<Rows<T>, Num>
    requires { Each (λ v. size ≤ length v) vectors.now }
    ensures { MatchResult result (AreFormsOf size (fronts size vectors.now)) (λ e. e ≡ Num.Range → IsTooLarge T.HALF size (fronts size vectors.now)) }
{
    let fronts = match fronts(alloc, vectors, size) {
        Ok(fronts) => fronts,
        Err(refusal) => return Err(Num::from(refusal)),
    };
    let description = match describe(alloc, size, &fronts) {
        Ok(description) => description,
        Err(refusal) => return Err(refusal),
    };
    match with_both_signs(alloc, description.support, &description.equations) {
        Ok(forms) => Ok(forms),
        Err(refusal) => Err(refusal),
    }
}

// The first entries of each vector, as many as this size.
fn fronts<T: Scalar>(alloc: Global, vectors: &Rows<T>, size: usize) -> Result<Rows<T>, NoMemory>
    requires { Each (λ v. size ≤ length v) vectors.now }
    ensures { IfOk result (λ r. r ≡ fronts size vectors.now) }
{
    let mut list = Rows::new(alloc);
    for place in 0..vectors.len() {
        let front = match front(alloc, vectors.at(place), size) {
            Ok(front) => front,
            Err(refusal) => return Err(refusal),
        };
        match list.push(front) {
            Ok(()) => {}
            Err(refusal) => return Err(refusal),
        }
    }
    Ok(list)
}

// The forms of the list, the equations, and the opposites of the equations.
fn with_both_signs<T: Scalar>(
    alloc: Global,
    list: Rows<T>,
    equations: &Rows<T>,
) -> Result<Rows<T>, Num>
    ensures forms { IfOk result (λ r. r ≡ (list ++ equations.now) ++ map opposite equations.now) }
    ensures cause { IfErr result (λ e. e ≡ Num.Range → SomeLarge T.HALF (Contains equations.now)) }
{
    let mut forms = match Rows::joined(list, equations) {
        Ok(forms) => forms,
        Err(refusal) => return Err(Num::from(refusal)),
    };
    for place in 0..equations.len() {
        let other = match opposite(alloc, equations.at(place)) {
            Ok(other) => other,
            Err(refusal) => return Err(refusal),
        };
        match forms.push(other) {
            Ok(()) => {}
            Err(refusal) => return Err(Num::from(refusal)),
        }
    }
    Ok(forms)
}
