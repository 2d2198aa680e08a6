//! From a file to its system.
ghost use Rattle.std.specs.Prelude.{◌≡◌, ◌<◌, ◌≤◌, [], length, IfOk, IsTrue};
ghost use Rattle.nz_input.specs.declared.kind.Mode.TheVariants.{Primal};
ghost use Rattle.nz_system.specs.Rules.{first, refusals};
ghost use Rattle.nz_system.specs.Meaning.{IsMeaning, system_of, there, width_of};

use crate::NoMemory;
use crate::asked::{GoalSet, goal_set, mode_for};
use crate::draft::Draft;
use crate::groups::{Group, stands};
use crate::refusal::SystemRefusal;
use crate::rules::first_refusal;
use crate::system::System;
use nz_input::{File, Goals, Mode};
use nz_vec::{Row, Rows};
use std::alloc::Global;

fn width_of(level: bool, amb: u32) -> u32
    requires { amb ≤ 64 }
    ensures { result ≡ width_of level amb }
{
    if level { amb + 1 } else { amb }
}

fn there(wanted: bool, rows: Rows<i128>) -> Option<Rows<i128>>
    ensures { result ≡ there wanted rows }
{
    if wanted { Some(rows) } else { None }
}

fn first_row(rows: &Rows<i128>) -> Result<Option<Row<i128>>, NoMemory>
    ensures { IfOk result (λ r. r ≡ first rows.now) }
{
    if rows.len() == 0 {
        return Ok(None);
    }
    Ok(Some(rows.at(0).try_copy()?))
}

// The system of a file that breaks no rule.
fn assembled(alloc: Global, file: &File, goals: GoalSet, mode: Mode) -> Result<System, NoMemory>
    requires meets { refusals file.now goals ≡ [] }
    requires cover { IsTrue goals.cover → mode ≡ Primal }
    ensures { IfOk result (λ s. s ≡ record { system = system_of file.now; goals = goals; mode = mode }) }
{
    file.kept();
    let level = stands(Group::Leveled, &file.items);
    let mut draft = Draft::new(alloc);
    draft.take_items(alloc, level, &file.items)?;
    draft.take_others(alloc, level, file)?;
    let Draft {
        equations,
        congruences,
        inequalities,
        generators,
        lattice,
        degrees,
        asked,
    } = draft;
    let grading = first_row(&degrees)?;
    Ok(System {
        width: width_of(level, file.amb),
        level,
        eq: equations,
        cg: congruences,
        ge: inequalities,
        gens: there(stands(Group::Generating, &file.items), generators),
        lat: there(stands(Group::ConeAndLattice, &file.items), lattice),
        grading,
        asked: there(stands(Group::Ask, &file.items), asked),
        goals,
        mode,
    })
}

/// The system of the file, with the goals of the file and of the words; or the first rule of meaning
/// that the file breaks. The items have the names and the meaning of the Normaliz 3 manual.
pub fn system_of(alloc: Global, file: &File, words: &Goals) -> Result<System, SystemRefusal>
    ensures { IsMeaning file.now words.now result }
{
    let goals = goal_set(&file.goals, words);
    match first_refusal(file, goals) {
        Some(refusal) => return Err(refusal),
        None => {}
    }
    let mode = mode_for(goals.cover, words, &file.goals);
    match assembled(alloc, file, goals, mode) {
        Ok(system) => Ok(system),
        Err(_) => Err(SystemRefusal::NoMemory),
    }
}
