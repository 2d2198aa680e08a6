//! Whether what is given is an order.
ghost use Rattle.std.specs.Prelude.{◌≡◌, ◌↔◌, IsTrue, MatchOption, MatchResult, option_map, ℕ, Option};
ghost use Rattle.nz_words.specs.Orders.{BeginsWithDash, Names, IsProject, IsNameOf, IsLimit, AreStages, IsSide, IsOrderOf, OrderData};

use crate::name::Name;
use crate::number::number;
use crate::ordering::{RunOrder, WordsRefusal};
use crate::reading::Given;
use std::alloc::Global;

fn begins_with_dash(word: &str) -> bool
    ensures { IsTrue result ↔ BeginsWithDash word.now }
{
    word.starts_with('-')
}

// The word without the one `.in` at its end.
fn without_ending(word: &str) -> &str
    ensures { Names word.entry.now result.now }
{
    match word.strip_suffix(".in") {
        Some(project) => project,
        None => word,
    }
}

fn is_project(name: &str) -> bool
    ensures { IsTrue result ↔ IsProject name.now }
{
    !name.is_empty() && name.len() <= 200 && !name.as_bytes().contains(&0)
}

fn project_of(word: &str) -> Option<&str>
    ensures { MatchOption result ((project : _) → ¬ IsNameOf word.entry.now project) (λ project. IsNameOf word.entry.now project.now) }
{
    if begins_with_dash(word) {
        return None;
    }
    let project = without_ending(word);
    if !is_project(project) {
        return None;
    }
    Some(project)
}

fn limit_of(text: Option<&str>) -> Option<u32>
    ensures { MatchOption result ((n : ℕ) → ¬ IsLimit (option_map (λ t. t.now) text.entry) n) (λ n. IsLimit (option_map (λ t. t.now) text.entry) n) }
{
    match text {
        Some(text) => number(text, 1, 250_000),
        None => Some(100_000),
    }
}

fn stages_of(text: Option<&str>) -> Option<Option<u64>>
    ensures { MatchOption result ((n : Option ℕ) → ¬ AreStages (option_map (λ t. t.now) text.entry) n) (λ n. AreStages (option_map (λ t. t.now) text.entry) n) }
{
    match text {
        Some(text) => match number(text, 0, 1_000_000) {
            Some(n) => Some(Some(n as u64)),
            None => None,
        },
        None => Some(None),
    }
}

fn side_of(text: Option<&str>) -> Option<Option<u32>>
    ensures { MatchOption result ((n : Option ℕ) → ¬ IsSide (option_map (λ t. t.now) text.entry) n) (λ n. IsSide (option_map (λ t. t.now) text.entry) n) }
{
    match text {
        Some(text) => match number(text, 1, 150) {
            Some(n) => Some(Some(n)),
            None => None,
        },
        None => Some(None),
    }
}

/// The order that is given, or Usage where none is.
pub(crate) fn order_of(alloc: Global, given: Given<'_>) -> Result<RunOrder, WordsRefusal>
    ensures { MatchResult result (λ order. IsOrderOf given.entry order) (λ e. e ≡ WordsRefusal.Usage → (order : OrderData) → ¬ IsOrderOf given.entry order) }
{
    let word = match given.name {
        Some(word) => word,
        None => return Err(WordsRefusal::Usage),
    };
    let project = match project_of(word) {
        Some(project) => project,
        None => return Err(WordsRefusal::Usage),
    };
    if given.both_modes {
        return Err(WordsRefusal::Usage);
    }
    if given.convert && given.units {
        return Err(WordsRefusal::Usage);
    }
    let limit = match limit_of(given.limit) {
        Some(limit) => limit,
        None => return Err(WordsRefusal::Usage),
    };
    let stages = match stages_of(given.stages) {
        Some(stages) => stages,
        None => return Err(WordsRefusal::Usage),
    };
    let make = match side_of(given.make) {
        Some(make) => make,
        None => return Err(WordsRefusal::Usage),
    };
    match Name::copied(alloc, project) {
        Ok(project) => Ok(RunOrder {
            project,
            goals: given.goals,
            limit,
            verbose: given.verbose,
            stages,
            make,
            convert: given.convert,
            units: given.units,
        }),
        Err(_) => Err(WordsRefusal::NoMemory),
    }
}
