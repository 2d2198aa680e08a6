//! Measures of the engines on the rows of a file: how many vectors come, and after how long.
//! It has no contract of its own: it hands the rows to the public calls of the engines, which have.
//! Below it stand the engines, and `nz_input` for the file.
//! The scripts of the folder `bench` run it.
//! Start reading at `main`, then at `measures.rt`.
#![tactic(auto)]

mod forms;
mod measures;
mod tables;

use forms::forms_of;
use measures::{Engine, Outcome, engine_of, measured};
use nz_input::read;
use std::time::Instant;
use std::{env, io};

// The word names the engine, and standard input is the file. The number of vectors goes to standard
// output, and the time of the engine alone to standard error.
fn main(rt: HostRuntime) -> io::Result<()> {
    let engine = match env::args(&rt)?.nth(1) {
        Some(word) => engine_of(word.as_bytes()),
        None => None,
    };
    let engine = match engine {
        Some(engine) => engine,
        None => return println!(rt;
            "usage: nz_bench rays|walk|reduce|cover|dual|list|sums|any|counted < FILE"
        ),
    };
    let text = io::read_to_string(rt.alloc(), rt.stdin())?;
    let file = match read(rt.alloc(), text.as_bytes()) {
        Ok(file) => file,
        Err(_) => return println!(rt; "no input file"),
    };
    let width = file.amb as usize;
    let rows = match forms_of(rt.alloc(), &file, width) {
        Ok(rows) => rows,
        Err(_) => return println!(rt; "no memory"),
    };
    let begun = Instant::now(&rt)?;
    match measured(rt.alloc(), engine, &rows, width) {
        Outcome::Vectors(count) => println!(rt; "{count} vectors")?,
        Outcome::Line => println!(rt; "a line")?,
        Outcome::Refused => println!(rt; "refused")?,
    }
    let time = begun.elapsed(&rt)?;
    eprintln!(rt; "{} ms", time.as_millis())
}
