//! The program: `nmz [options] PROJECT` reads `PROJECT.in`, stores `PROJECT.out` and prints a status line.
//! It has no contract of its own: it hands the words and the outside to `nz_run::run`, whose contract is the product's.
//! Below it stand `nz_run`, for the run, `nz_words`, for the choice of the watch, and `nz_edge`, for the disk and the terminal.
//! People use it, from a shell.
//! There is nothing to read before `main`; then go on with `run`.
#![tactic(auto)]

use nz_edge::{DiskFolder, LinesWatch, StdSink, StopWatch};
use nz_run::{Status, run};
use nz_watch::{QuietWatch, Watch};
use nz_words::watch_choice;
use std::io::ErrorKind;
use std::process::ExitCode;
use std::{env, io};

// The words after the program's own name.
fn words_of(rt: &HostRuntime) -> io::Result<Vec<String>> {
    let mut words = Vec::new(rt.alloc());
    for word in env::args(rt)?.skip(1) {
        words.push(word)?;
    }
    Ok(words)
}

fn no_memory() -> ExitCode {
    ExitCode::from(Status::NoMemory.code())
}

// The run, over the disk and the terminal.
fn run_watched(rt: HostRuntime, words: &[String], mut watch: Box<dyn Watch>) -> ExitCode {
    let mut folder = DiskFolder::new(rt);
    let mut console = StdSink::new(rt);
    let status = run(rt.alloc(), words, &mut folder, &mut console, &mut watch);
    ExitCode::from(status.code())
}

// A run that prints nothing of its stages.
fn run_quietly(rt: HostRuntime, words: &[String]) -> ExitCode {
    let watch: Box<dyn Watch> = match Box::new(rt.alloc(), QuietWatch::new()) {
        Ok(watch) => watch,
        Err(_) => return no_memory(),
    };
    run_watched(rt, words, watch)
}

// A run that prints its stages.
fn run_printing(rt: HostRuntime, words: &[String]) -> ExitCode {
    let watch: Box<dyn Watch> = match Box::new(rt.alloc(), LinesWatch::new(rt)) {
        Ok(watch) => watch,
        Err(_) => return no_memory(),
    };
    run_watched(rt, words, watch)
}

// A run that stops after so many stages.
fn run_stopping(rt: HostRuntime, words: &[String], left: u64, lines: bool) -> ExitCode {
    let watch: Box<dyn Watch> = match Box::new(rt.alloc(), StopWatch::new(rt, left, lines)) {
        Ok(watch) => watch,
        Err(_) => return no_memory(),
    };
    run_watched(rt, words, watch)
}

// Where memory is wanting, nothing is run, since a part of the words would mean another run.
fn main(rt: HostRuntime) -> ExitCode {
    let words = match words_of(&rt) {
        Ok(words) => words,
        Err(error) => {
            if error.kind() == ErrorKind::OutOfMemory {
                return no_memory();
            }
            // A word is no text. No words are refused in the same way.
            Vec::new(rt.alloc())
        }
    };
    let choice = match watch_choice(rt.alloc(), words.as_slice()) {
        Ok(choice) => choice,
        Err(_) => return no_memory(),
    };
    match choice.stages {
        Some(left) => run_stopping(rt, words.as_slice(), left, choice.verbose),
        None => {
            if choice.verbose {
                run_printing(rt, words.as_slice())
            } else {
                run_quietly(rt, words.as_slice())
            }
        }
    }
}
