//! What a row of a file gives to its system.
ghost use Rattle.std.specs.Prelude.{◌≡◌, ◌<◌, ◌≤◌, ◌++◌, ◌∷◌, ◌-◌, [], length, take, pos, replicate, IfOk, OnOk};
ghost use Rattle.nz_spec.specs.Vectors.{entry, zero_vector};
ghost use Rattle.nz_system.specs.Contributions.{coordinate_form};
ghost use Rattle.nz_system.specs.Meaning.{level_unit};

use crate::NoMemory;
use nz_vec::{Row, Scalar};
use std::alloc::Global;

/// What a row gives: a constraint on a form, a generator, a lattice generator, the grading, or an
/// asked vector.
#[derive(Drop)]
pub enum Contribution {
    /// The form is 0.
    Zero(Row<i128>),
    /// The form is a multiple of the modulus.
    Multiple(Row<i128>, i128),
    /// The form is at least 0.
    NotNegative(Row<i128>),
    Generator(Row<i128>),
    LatticeGenerator(Row<i128>),
    Degree(Row<i128>),
    Asked(Row<i128>),
}

/// The entry of a row as the widest integer.
pub(crate) fn number<T: Scalar>(row: &Row<T>, place: usize) -> i128
    requires { place < length row.now }
    ensures { result ≡ entry row.now place }
{
    row.at(place).to_i128()
}

fn push_all(entries: &mut Vec<i128>, more: &[i128]) -> Result<(), NoMemory>
    ensures { OnOk result (entries.new.items ≡ entries.old.items ++ more.now) }
{
    match entries.extend_from_slice(more) {
        Ok(()) => Ok(()),
        Err(_) => Err(NoMemory),
    }
}

fn push_zeros(entries: &mut Vec<i128>, count: usize) -> Result<(), NoMemory>
    ensures { OnOk result (entries.new.items ≡ entries.old.items ++ zero_vector count) }
{
    for _ in 0..count {
        push_all(entries, &[0])?;
    }
    Ok(())
}

fn push_entries<T: Scalar>(
    entries: &mut Vec<i128>,
    row: &Row<T>,
    count: usize,
) -> Result<(), NoMemory>
    requires { count ≤ length row.now }
    ensures { OnOk result (entries.new.items ≡ entries.old.items ++ take count row.now) }
{
    for place in 0..count {
        match entries.push(number(row, place)) {
            Ok(()) => {}
            Err(_) => return Err(NoMemory),
        }
    }
    Ok(())
}

/// The first entries of a row, and others behind them.
pub(crate) fn first_entries<T: Scalar>(
    alloc: Global,
    row: &Row<T>,
    count: usize,
    behind: &[i128],
) -> Result<Row<i128>, NoMemory>
    requires { count ≤ length row.now }
    ensures { IfOk result (λ r. r ≡ take count row.now ++ behind.now) }
{
    let mut entries = Vec::new(alloc);
    push_entries(&mut entries, row, count)?;
    push_all(&mut entries, behind)?;
    Ok(Row::from_vec(entries))
}

/// Level 1, and 0 elsewhere: the form of the level, and the vertex 0.
pub(crate) fn level_unit(alloc: Global, amb: u32) -> Result<Row<i128>, NoMemory>
    ensures { IfOk result (λ r. r ≡ level_unit amb) }
{
    let mut entries = Vec::new(alloc);
    push_zeros(&mut entries, amb as usize)?;
    push_all(&mut entries, &[1])?;
    Ok(Row::from_vec(entries))
}

/// The row with 1 everywhere.
pub(crate) fn ones(alloc: Global, amb: u32) -> Result<Row<i64>, NoMemory>
    ensures { IfOk result (λ r. r ≡ replicate amb (pos 1)) }
{
    let mut entries: Vec<i64> = Vec::new(alloc);
    for _ in 0..amb {
        match entries.push(1) {
            Ok(()) => {}
            Err(_) => return Err(NoMemory),
        }
    }
    Ok(Row::from_vec(entries))
}

/// The form a·x_i, with other entries behind it.
pub(crate) fn coordinate(
    alloc: Global,
    amb: usize,
    place: usize,
    factor: i128,
    behind: &[i128],
) -> Result<Row<i128>, NoMemory>
    requires { place < amb }
    ensures { IfOk result (λ r. r ≡ coordinate_form amb place factor ++ behind.now) }
{
    let mut entries = Vec::new(alloc);
    push_zeros(&mut entries, place)?;
    push_all(&mut entries, &[factor])?;
    push_zeros(&mut entries, amb - place - 1)?;
    push_all(&mut entries, behind)?;
    Ok(Row::from_vec(entries))
}
