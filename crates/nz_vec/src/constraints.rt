use crate::{NoMemory, Row, Scalar};
use std::alloc::Global;
use std::marker::Model;

/// What a form has to be at a vector.
#[derive(Drop)]
pub enum Constraint<T: Scalar> {
    /// The form is 0.
    Zero(Row<T>),
    /// The form is a multiple of a modulus, which is at least 1.
    Multiple(Row<T>, T),
    /// The form is at least 0.
    NotNegative(Row<T>),
}

/// A list of constraints, seen as the constraints of the definitions.
#[derive(Drop)]
pub struct Constraints<T: Scalar> {
    constraints: Vec<Constraint<T>>,
}

impl<T: Scalar> Model for Constraints<T> {
    ghost use Rattle.std.specs.Prelude.{List, map};
    ghost use Rattle.nz_spec.specs.Constraints.{Constraint as Condition};
    ghost use Rattle.nz_vec.specs.Conditions.{condition_of};

    ghost Value = { List Condition };

    ghost view = { λ c. map (condition_of T.integer) c.constraints.items };
}

impl<T: Scalar> Constraints<T> {
    ghost use Rattle.std.specs.Prelude.{◌≡◌, ◌<◌, ◌++◌, ◌∷◌, [], length, OnOk, OnErr, slice_index_or};
    ghost use Rattle.nz_vec.specs.Conditions.{condition_of};

    pub fn new(alloc: Global) -> Constraints<T>
        ensures { result ≡ [] }
    {
        Constraints {
            constraints: Vec::new(alloc),
        }
    }

    pub fn push(&mut self, entry: Constraint<T>) -> Result<(), NoMemory>
        ensures ok { OnOk result (self.new ≡ self.old ++ condition_of T.integer entry ∷ []) }
        ensures err { OnErr result (self.new ≡ self.old) }
    {
        match self.constraints.push(entry) {
            Ok(()) => Ok(()),
            Err(_) => Err(NoMemory),
        }
    }

    pub fn len(&self) -> usize
        ensures { result ≡ length self.now }
    {
        self.constraints.len()
    }

    pub fn at(&self, place: usize) -> &Constraint<T>
        requires { place < length self.now }
        ensures { condition_of T.integer result.now ≡ slice_index_or self.now place (condition_of T.integer result.now) }
    {
        &self.constraints[place]
    }
}
