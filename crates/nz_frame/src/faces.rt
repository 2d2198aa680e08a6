// The constraints of a system as forms: its own, and then those of its generators.
ghost use Rattle.std.specs.Prelude.{◌≡◌, ◌++◌, IfOk, IfErr, IfSome};
ghost use Rattle.nz_measures.specs.Reaches.{HasOwnAbove};
ghost use Rattle.nz_frame.specs.Frames.{AreGeneratorsTooLarge};
ghost use Rattle.std.specs.List.{AllByRecursion as Each};
ghost use Rattle.nz_spec.specs.Vectors.{HasWidth};
ghost use Rattle.nz_spec.specs.Constraints.{AreGenEquations, AreGenSupport, AreEquationsOf, AreRowsOf};

use nz_facets::{Description, describe};
use nz_system::SystemOver;
use nz_vec::{NoMemory, Num, Rows, Scalar};
use std::alloc::Global;

/// The forms that are to be 0 and those that are to be at least 0.
#[derive(Drop)]
pub(crate) struct Faces<T: Scalar> {
    pub(crate) equations: Rows<T>,
    pub(crate) rows: Rows<T>,
}

/// The equations and the rows of the system.
pub(crate) fn faces_of<T: Scalar>(alloc: Global, system: &SystemOver<T>) -> Result<Faces<T>, Num>
    ensures found { IfOk result (λ f. AreEquationsOf system.now.system f.equations × AreRowsOf system.now.system f.rows) }
    ensures cause { IfErr result (λ e. e ≡ Num.Range → HasOwnAbove system.now.system T.HALF) }
{
    system.kept();
    let given = match of_generators(alloc, system.width as usize, &system.gens) {
        Ok(given) => given,
        Err(refusal) => return Err(refusal),
    };
    let equations = match joined(&system.eq, &given.equations) {
        Ok(equations) => equations,
        Err(refusal) => return Err(Num::from(refusal)),
    };
    match joined(&system.ge, &given.support) {
        Ok(rows) => Ok(Faces { equations, rows }),
        Err(refusal) => Err(Num::from(refusal)),
    }
}

// The support forms and the equations of the generators, and none where none are given.
fn of_generators<T: Scalar>(
    alloc: Global,
    width: usize,
    gens: &Option<Rows<T>>,
) -> Result<Description<T>, Num>
    requires { IfSome gens.now (Each (HasWidth width)) }
    ensures found { IfOk result (λ d. AreGenEquations width gens.now d.equations × AreGenSupport width gens.now d.support) }
    ensures cause { IfErr result (λ e. e ≡ Num.Range → AreGeneratorsTooLarge T.HALF width gens.now) }
{
    match gens {
        Some(gens) => describe(alloc, width, gens),
        None => Ok(Description {
            support: Rows::new(alloc),
            equations: Rows::new(alloc),
        }),
    }
}

// The rows of the one list, and then those of the other.
fn joined<T: Scalar>(first: &Rows<T>, second: &Rows<T>) -> Result<Rows<T>, NoMemory>
    ensures { IfOk result (λ r. r ≡ first.now ++ second.now) }
{
    match first.try_copy() {
        Ok(list) => Rows::joined(list, second),
        Err(refusal) => Err(refusal),
    }
}
