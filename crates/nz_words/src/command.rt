//! The command, as `clap` builds it.
ghost use Rattle.std.specs.Prelude.{◌≡◌, false, IfOk};
ghost use Rattle.clap.specs.Walk.{rule_of};
ghost use Rattle.clap.specs.Simple.{app_of, with_rule};
ghost use Rattle.nz_words.specs.Rules.{flag_rule, setting_rule, name_rule, command_app};

use clap::{Arg, ArgAction, Command};
use nz_vec::NoMemory;
use std::alloc::Global;

fn flag<'a>(alloc: Global, word: &'a str) -> Arg<'a>
    ensures rule { rule_of result ≡ flag_rule word.entry.now }
    ensures local { result.global ≡ false }
{
    Arg::new(alloc, word).long(word).action(ArgAction::SetTrue)
}

fn setting<'a>(alloc: Global, word: &'a str) -> Arg<'a>
    ensures rule { rule_of result ≡ setting_rule word.entry.now }
    ensures local { result.global ≡ false }
{
    Arg::new(alloc, word).long(word).action(ArgAction::Set)
}

fn project<'a>(alloc: Global) -> Arg<'a>
    ensures rule { rule_of result ≡ name_rule }
    ensures local { result.global ≡ false }
{
    Arg::new(alloc, "PROJECT")
        .required(true)
        .action(ArgAction::Set)
}

fn with<'a>(command: Command<'a>, arg: Arg<'a>) -> Result<Command<'a>, NoMemory>
    requires { arg.global ≡ false }
    ensures { IfOk result (λ made. app_of made ≡ with_rule (app_of command.entry) (rule_of arg.entry)) }
{
    match command.arg(arg) {
        Ok(made) => Ok(made),
        Err(_) => Err(NoMemory),
    }
}

/// The command without an abbreviation, a help flag or a version flag.
pub(crate) fn command<'a>(alloc: Global) -> Result<Command<'a>, NoMemory>
    ensures { IfOk result (λ made. app_of made ≡ command_app) }
{
    let made = Command::new(alloc, "nmz")
        .no_binary_name(true)
        .disable_help_flag(true);
    let made = with(made, flag(alloc, "HilbertBasis"))?;
    let made = with(made, flag(alloc, "ExtremeRays"))?;
    let made = with(made, flag(alloc, "SupportHyperplanes"))?;
    let made = with(made, flag(alloc, "Deg1Elements"))?;
    let made = with(made, flag(alloc, "ModuleGenerators"))?;
    let made = with(made, flag(alloc, "Triangulation"))?;
    let made = with(made, flag(alloc, "DualMode"))?;
    let made = with(made, flag(alloc, "PrimalMode"))?;
    let made = with(made, flag(alloc, "LatticePoints"))?;
    let made = with(made, flag(alloc, "Verbose"))?;
    let made = with(made, flag(alloc, "Convert"))?;
    let made = with(made, flag(alloc, "Units"))?;
    let made = with(made, setting(alloc, "Limit"))?;
    let made = with(made, setting(alloc, "Stages"))?;
    let made = with(made, setting(alloc, "Make"))?;
    with(made, project(alloc))
}
