//! What the words order.
ghost use Rattle.std.specs.Prelude.{◌≡◌, ◌⊎◌, ◌≢◌, [], MatchResult, IfOk, string_bytes};
ghost use Rattle.clap.specs.Walk.{rows_of};
ghost use Rattle.clap.specs.Matches.{found_of};
ghost use Rattle.clap.specs.Simple.{matches_of};
ghost use Rattle.clap.specs.Faults.{fault_of};
ghost use Rattle.nz_words.specs.Parts.{bytes_of_each};
ghost use Rattle.nz_words.specs.Orders.{IsOrder, AreRefused, IsChoice};
ghost use Rattle.nz_words.specs.Rules.{command_app};

use crate::command::command;
use crate::judging::order_of;
use crate::name::Name;
use crate::reading::all_given;
use clap::ArgMatches;
use clap::error::ErrorKind;
use nz_input::Goals;
use nz_vec::NoMemory;
use std::alloc::Global;
use std::marker::Model;

/// What a run is asked for.
#[derive(Drop)]
pub struct RunOrder {
    /// The name of the input file without its `.in`.
    pub project: Name,
    /// The goals among the flags, in the order of the list of goal words. They come to those of the file.
    pub goals: Goals,
    /// The most vectors that one list of a run may hold, from 1 to 250,000.
    pub limit: u32,
    /// Whether each stage is printed.
    pub verbose: bool,
    /// After how many stages the run stops, where it is to stop.
    pub stages: Option<u64>,
    /// The side of the file that is made in the place of an input, from 1 to 150, where one is to be made.
    pub make: Option<u32>,
    /// Whether the input's file is only written again, as its canonical text, and not solved. Never with `units`.
    pub convert: bool,
    /// Whether the units of the monoid and its irreducible classes are listed.
    pub units: bool,
}

impl Model for RunOrder {
    ghost use Rattle.nz_words.specs.Orders.{OrderData};

    ghost Value = { OrderData };

    ghost view = { λ o. record {
      project = o.project;
      goals = o.goals;
      limit = o.limit;
      verbose = o.verbose;
      stages = o.stages;
      make = o.make;
      convert = o.convert;
      units = o.units;
    } };
}

/// Why there is no order.
#[derive(Clone, Copy, PartialEq, Eq, Debug, Drop)]
pub enum WordsRefusal {
    /// The words order nothing.
    Usage,
    /// Memory ran out.
    NoMemory,
}

// The words as `clap` finds them in the command.
fn found<'a>(alloc: Global, words: &'a [String]) -> Result<ArgMatches<'a>, WordsRefusal>
    ensures { MatchResult result
        (λ m. (rows_of (found_of m) ≡ matches_of command_app (bytes_of_each words.entry.now)) × (fault_of command_app (bytes_of_each words.entry.now) ≡ []))
        (λ e. e ≡ WordsRefusal.Usage → fault_of command_app (bytes_of_each words.entry.now) ≢ []) }
{
    let command = match command(alloc) {
        Ok(command) => command,
        Err(_) => return Err(WordsRefusal::NoMemory),
    };
    match command.try_get_matches_from(words) {
        Ok(matches) => Ok(matches),
        Err(error) => match error.kind() {
            ErrorKind::OutOfMemory => Err(WordsRefusal::NoMemory),
            _ => Err(WordsRefusal::Usage),
        },
    }
}

/// What the words order. They are those behind the program's own name.
pub fn order(alloc: Global, words: &[String]) -> Result<RunOrder, WordsRefusal>
    // The words order exactly this, or, at Usage, nothing.
    ensures { MatchResult result (λ order. IsOrder (bytes_of_each words.now) order) (λ e. e ≡ WordsRefusal.Usage → AreRefused (bytes_of_each words.now)) }
{
    let matches = match found(alloc, words) {
        Ok(matches) => matches,
        Err(refusal) => return Err(refusal),
    };
    match all_given(alloc, &matches) {
        Ok(given) => order_of(alloc, given),
        Err(_) => Err(WordsRefusal::NoMemory),
    }
}

/// By what a watch is chosen.
#[derive(Clone, Copy, PartialEq, Eq, Debug, Drop)]
pub struct WatchChoice {
    /// Whether each stage is printed.
    pub verbose: bool,
    /// After how many stages the run stops, where it is to stop.
    pub stages: Option<u64>,
}

/// The two fields of the order, and false and None where the words are refused.
pub fn watch_choice(alloc: Global, words: &[String]) -> Result<WatchChoice, NoMemory>
    ensures { IfOk result (λ choice. IsChoice (bytes_of_each words.now) choice.verbose choice.stages) }
{
    match order(alloc, words) {
        Ok(order) => Ok(WatchChoice {
            verbose: order.verbose,
            stages: order.stages,
        }),
        Err(WordsRefusal::Usage) => Ok(WatchChoice {
            verbose: false,
            stages: None,
        }),
        Err(WordsRefusal::NoMemory) => Err(NoMemory),
    }
}
