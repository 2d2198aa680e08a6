//! What was found of each flag, each option and the name.
ghost use Rattle.std.specs.Prelude.{◌≡◌, ◌⊎◌, ◌++◌, Some, codes, IfOk, OnOk, option_map, filter};
ghost use Rattle.clap.specs.Walk.{rows_of, one_of, first_of};
ghost use Rattle.clap.specs.Matches.{found_of};
ghost use Rattle.nz_input.specs.Words.{goal_word};
ghost use Rattle.nz_words.specs.Orders.{all_goals};
ghost use Rattle.nz_words.specs.Rules.{given_in, is_on, only_where, AreFlags, IsFlagIn};

use clap::ArgMatches;
use nz_input::{Goal, Goals};
use nz_vec::NoMemory;
use std::alloc::Global;
use std::marker::Model;

/// What the words give, before it is judged.
#[derive(Drop)]
pub(crate) struct Given<'a> {
    pub name: Option<&'a str>,
    pub goals: Goals,
    pub both_modes: bool,
    pub limit: Option<&'a str>,
    pub verbose: bool,
    pub stages: Option<&'a str>,
    pub make: Option<&'a str>,
    pub convert: bool,
    pub units: bool,
}

impl<'a> Model for Given<'a> {
    ghost use Rattle.std.specs.Prelude.{option_map};
    ghost use Rattle.nz_words.specs.Orders.{GivenData};

    ghost Value = { GivenData };

    ghost view = { λ g. record {
      name = option_map (λ text. text.now) g.name;
      goals = g.goals;
      both_modes = g.both_modes;
      limit = option_map (λ text. text.now) g.limit;
      verbose = g.verbose;
      stages = option_map (λ text. text.now) g.stages;
      make = option_map (λ text. text.now) g.make;
      convert = g.convert;
      units = g.units;
    } };
}

const GOALS: [Goal; 9] = [
    Goal::HilbertBasis,
    Goal::ExtremeRays,
    Goal::SupportHyperplanes,
    Goal::Deg1Elements,
    Goal::ModuleGenerators,
    Goal::Triangulation,
    Goal::DualMode,
    Goal::PrimalMode,
    Goal::LatticePoints,
];

fn word_of(goal: Goal) -> &'static str
    ensures { result.now ≡ goal_word goal }
{
    match goal {
        Goal::HilbertBasis => "HilbertBasis",
        Goal::ExtremeRays => "ExtremeRays",
        Goal::SupportHyperplanes => "SupportHyperplanes",
        Goal::Deg1Elements => "Deg1Elements",
        Goal::ModuleGenerators => "ModuleGenerators",
        Goal::Triangulation => "Triangulation",
        Goal::DualMode => "DualMode",
        Goal::PrimalMode => "PrimalMode",
        Goal::LatticePoints => "LatticePoints",
    }
}

fn flag(matches: &ArgMatches<'_>, word: &str) -> bool
    requires { IsFlagIn (rows_of (found_of matches.now)) word.now }
    ensures { result ≡ is_on word.now (rows_of (found_of matches.now)) }
{
    matches.get_flag(word)
}

fn value<'a>(matches: &ArgMatches<'a>, label: &str) -> Option<&'a str>
    ensures { option_map (λ text. text.now) result ≡ first_of label.now (rows_of (found_of matches.now)) }
{
    matches.get_str(label)
}

fn push_where(goals: &mut Goals, goal: Goal, wanted: bool) -> Result<(), NoMemory>
    ensures { OnOk result (goals.new ≡ goals.old ++ only_where wanted goal) }
{
    if wanted {
        return goals.push(goal);
    }
    Ok(())
}

fn goals(alloc: Global, matches: &ArgMatches<'_>) -> Result<Goals, NoMemory>
    requires { AreFlags (rows_of (found_of matches.now)) }
    ensures { IfOk result (λ list. list ≡ filter (λ g. is_on (goal_word g) (rows_of (found_of matches.now))) all_goals) }
{
    let mut list = Goals::new(alloc);
    for place in 0..GOALS.len() {
        let goal = GOALS[place];
        match push_where(&mut list, goal, flag(matches, word_of(goal))) {
            Ok(()) => {}
            Err(_) => return Err(NoMemory),
        }
    }
    Ok(list)
}

/// What was found of each flag, each option and the name.
pub(crate) fn all_given<'a>(alloc: Global, matches: &ArgMatches<'a>) -> Result<Given<'a>, NoMemory>
    requires { AreFlags (rows_of (found_of matches.now)) }
    ensures { IfOk result (λ given. given ≡ given_in (rows_of (found_of matches.now))) }
{
    let goals = match goals(alloc, matches) {
        Ok(goals) => goals,
        Err(_) => return Err(NoMemory),
    };
    let dual = flag(matches, "DualMode");
    let primal = flag(matches, "PrimalMode");
    Ok(Given {
        name: value(matches, "PROJECT"),
        goals,
        both_modes: dual && primal,
        limit: value(matches, "Limit"),
        verbose: flag(matches, "Verbose"),
        stages: value(matches, "Stages"),
        make: value(matches, "Make"),
        convert: flag(matches, "Convert"),
        units: flag(matches, "Units"),
    })
}
