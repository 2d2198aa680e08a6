// The asked vectors of a file, each with its parts or with the first constraint that it breaks.
ghost use Rattle.std.specs.Prelude.{◌≡◌, FitsSigned, IfOk, IfErr, IfSome};
ghost use Rattle.std.specs.Int.{w128};
ghost use Rattle.std.specs.List.{AllByRecursion as Each, AllZip};
ghost use Rattle.nz_spec.specs.Systems.{IsMember};
ghost use Rattle.nz_spec.specs.Monoids.{IsPositive};
ghost use Rattle.nz_member.specs.Replies.{LacksNumber};
ghost use Rattle.nz_measures.specs.Reaches.{HasOwnAbove};
ghost use Rattle.nz_blocks.specs.Outcomes.{at_level, HasText};
ghost use Rattle.nz_frame.specs.Constraining.{AreAllConstraints};
ghost use Rattle.nz_solve.specs.Replies.{AreAnswered};
ghost use Rattle.nz_solve.specs.Parts.{AreElementLists, IsFitting, IsAnswered, LacksReply};

use crate::lists::ElementLists;
use crate::widening::{widen_constraints, widen_rows};
use nz_blocks::AskedList;
use nz_frame::system_constraints;
use nz_member::{Reply, answer};
use nz_system::SystemOver;
use nz_vec::{Constraints, NoMemory, Num, Row, Rows, Scalar};
use std::alloc::Global;

/// The asked vectors with their replies, where vectors are asked, by the lists at the greatest width.
/// With a level they are taken with level 1.
pub(crate) fn answer_asked<T: Scalar>(
    alloc: Global,
    system: &SystemOver<T>,
    lists: &ElementLists<i128>,
) -> Result<Option<AskedList>, Num>
    requires positive { IsPositive (IsMember system.now.system) }
    requires lists { AreElementLists system.now.system lists.now.hilbert lists.now.modules }
    ensures answered { IfOk result (AreAnswered system.now.system system.now.system.asked) }
    ensures texts { IfOk result (λ list. IfSome list (Each (λ a. HasText system.now.system.level a.0 a.1))) }
    ensures cause { IfErr result (λ e. e ≡ Num.Range → HasOwnAbove system.now.system T.HALF) }
{
    system.kept();
    let asked = match &system.asked {
        Some(asked) => asked,
        None => return Ok(None),
    };
    let constraints = match wide_constraints(alloc, system) {
        Ok(constraints) => constraints,
        Err(refusal) => return Err(refusal),
    };
    let vectors = match widen_rows(alloc, asked) {
        Ok(vectors) => vectors,
        Err(refusal) => return Err(Num::from(refusal)),
    };
    match answer_all(alloc, system.level, &constraints, &vectors, lists) {
        Ok(list) => Ok(Some(list)),
        Err(refusal) => Err(refusal),
    }
}

// The constraints of the system, at the greatest width.
fn wide_constraints<T: Scalar>(
    alloc: Global,
    system: &SystemOver<T>,
) -> Result<Constraints<i128>, Num>
    ensures all { IfOk result (AreAllConstraints system.now.system) }
    ensures cause { IfErr result (λ e. e ≡ Num.Range → HasOwnAbove system.now.system T.HALF) }
{
    let constraints = match system_constraints(alloc, system) {
        Ok(constraints) => constraints,
        Err(refusal) => return Err(refusal),
    };
    match widen_constraints(alloc, &constraints) {
        Ok(constraints) => Ok(constraints),
        Err(refusal) => Err(Num::from(refusal)),
    }
}

// Each vector with its reply.
fn answer_all(
    alloc: Global,
    level: bool,
    constraints: &Constraints<i128>,
    vectors: &Rows<i128>,
    lists: &ElementLists<i128>,
) -> Result<AskedList, Num>
    requires { Each (IsFitting constraints.now level lists.now.hilbert lists.now.modules) vectors.now }
    ensures answered { IfOk result (AllZip (IsAnswered constraints.now level lists.now.hilbert lists.now.modules) vectors.now) }
    ensures cause { IfErr result (λ e. e ≡ Num.Range → LacksReply (FitsSigned w128) constraints.now level lists.now.hilbert lists.now.modules vectors.now) }
{
    let mut list = AskedList::new(alloc);
    for place in 0..vectors.len() {
        let entry = match answer_one(alloc, level, constraints, vectors.at(place), lists) {
            Ok(entry) => entry,
            Err(refusal) => return Err(refusal),
        };
        match list.push(entry) {
            Ok(()) => {}
            Err(refusal) => return Err(Num::from(refusal)),
        }
    }
    Ok(list)
}

// The vector with its reply.
fn answer_one(
    alloc: Global,
    level: bool,
    constraints: &Constraints<i128>,
    vector: &Row<i128>,
    lists: &ElementLists<i128>,
) -> Result<(Row<i128>, Reply<i128>), Num>
    requires { IsFitting constraints.now level lists.now.hilbert lists.now.modules vector.now }
    ensures answered { IfOk result (IsAnswered constraints.now level lists.now.hilbert lists.now.modules vector.now) }
    ensures cause { IfErr result (λ e. e ≡ Num.Range → LacksNumber (FitsSigned w128) constraints.now (at_level level vector.now) lists.now.hilbert lists.now.modules) }
{
    let x = match with_level(level, vector) {
        Ok(x) => x,
        Err(refusal) => return Err(Num::from(refusal)),
    };
    let reply = match &lists.modules {
        Some(modules) => answer(alloc, constraints, &x, &lists.hilbert, Some(modules)),
        None => answer(alloc, constraints, &x, &lists.hilbert, None),
    };
    let reply = match reply {
        Ok(reply) => reply,
        Err(refusal) => return Err(refusal),
    };
    match vector.try_copy() {
        Ok(vector) => Ok((vector, reply)),
        Err(refusal) => Err(Num::from(refusal)),
    }
}

// The vector, with level 1 where there is a level.
fn with_level<T: Scalar>(level: bool, vector: &Row<T>) -> Result<Row<T>, NoMemory>
    ensures { IfOk result (λ x. x ≡ at_level level vector.now) }
{
    if !level {
        return vector.try_copy();
    }
    let mut entries = vector.try_copy()?.into_vec();
    match entries.push(T::of_i64(1)) {
        Ok(()) => Ok(Row::from_vec(entries)),
        Err(_) => Err(NoMemory),
    }
}
