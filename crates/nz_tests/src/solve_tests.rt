//! Systems of files, solved: what the goals ask, what the watch is told, and lines.
ghost use Rattle.std.specs.Prelude.{IfSome, ◌≤◌};

use nz_blocks::{Outcome, blocks};
use nz_input::{Goals, read};
use nz_solve::{InnerRefusal, SolveRefusal, solve, solve_in};
use nz_system::{System, system_of};
use nz_vec::Ints;
use nz_watch::{MemWatch, Watch};
use std::alloc::Global;
use std::test::Fail;

// The number of the call that asks to stop, after so many that do not.
fn stop_at(passed: Option<u8>) -> Option<u64>
    ensures { IfSome result (λ number. 1 ≤ number) }
{
    match passed {
        Some(passed) => Some(passed as u64 + 1),
        None => None,
    }
}

fn put_vector(text: &mut String, label: &str, vector: &Ints) -> Result<(), Fail> {
    text.push_str(label)?;
    for place in 0..vector.len() {
        write!(text, " {}", vector.at(place))?;
    }
    text.push_str("\n")?;
    Ok(())
}

fn put_told(text: &mut String, watch: &Box<dyn Watch>) -> Result<(), Fail> {
    text.push_str("told:")?;
    for place in 0..10 {
        match watch.pair(place) {
            Some((number, count)) => write!(text, " {number} {count}")?,
            None => return Ok(()),
        }
    }
    Ok(())
}

fn put_outcome(alloc: Global, text: &mut String, outcome: &Outcome) -> Result<(), Fail> {
    let output = blocks(alloc, outcome)?;
    match std::str::from_utf8(output.as_slice()) {
        Ok(output) => text.push_str(output)?,
        Err(_) => return Err(Fail::from("no text")),
    }
    Ok(())
}

fn put_refusal(text: &mut String, refusal: SolveRefusal) -> Result<(), Fail> {
    match refusal {
        SolveRefusal::Line(line) => put_vector(text, "line:", &line)?,
        SolveRefusal::Grade(element) => put_vector(text, "grade:", &element)?,
        SolveRefusal::Range => text.push_str("range\n")?,
        SolveRefusal::TooMany => text.push_str("too many\n")?,
        SolveRefusal::Stopped { stage } => write!(text, "stopped {stage}\n")?,
        SolveRefusal::NoMemory => return Err(Fail::from("no memory")),
    }
    Ok(())
}

fn put_inner_refusal(text: &mut String, refusal: InnerRefusal) -> Result<(), Fail> {
    match refusal {
        InnerRefusal::Line(line) => put_vector(text, "line:", &line)?,
        InnerRefusal::Grade(element) => put_vector(text, "grade:", &element)?,
        InnerRefusal::Range { told } => write!(text, "range after {told}\n")?,
        InnerRefusal::TooMany => text.push_str("too many\n")?,
        InnerRefusal::Stopped { stage } => write!(text, "stopped {stage}\n")?,
        InnerRefusal::NoMemory => return Err(Fail::from("no memory")),
    }
    Ok(())
}

// The text of the outcome and what the watch was told, or the refusal.
fn answer(alloc: Global, system: &System, limit: u32, passed: Option<u8>) -> Result<String, Fail> {
    let watch = MemWatch::new(alloc, 10, stop_at(passed))?;
    let mut watch: Box<dyn Watch> = Box::new(alloc, watch)?;
    let mut text = String::new(alloc);
    system.kept();
    match solve(alloc, system, limit, &mut watch) {
        Ok(outcome) => put_outcome(alloc, &mut text, &outcome)?,
        Err(refusal) => put_refusal(&mut text, refusal)?,
    }
    put_told(&mut text, &watch)?;
    Ok(text)
}

fn system_for(alloc: Global, text: &str) -> Result<System, Fail> {
    let file = match read(alloc, text.as_bytes()) {
        Ok(file) => file,
        Err(_) => return Err(Fail::from("no file")),
    };
    match system_of(alloc, &file, &Goals::new(alloc)) {
        Ok(system) => Ok(system),
        Err(_) => Err(Fail::from("no system")),
    }
}

fn solved(alloc: Global, text: &str, limit: u32, passed: Option<u8>) -> Result<String, Fail> {
    let system = system_for(alloc, text)?;
    answer(alloc, &system, limit, passed)
}

// With 64 bits: the text of the outcome, or the number of Range; and what the watch was told, which was told so many stages before.
fn narrow(alloc: Global, text: &str, told: u8) -> Result<String, Fail> {
    let system = system_for(alloc, text)?;
    let watch = MemWatch::new(alloc, 10, None)?;
    let mut watch: Box<dyn Watch> = Box::new(alloc, watch)?;
    let mut text = String::new(alloc);
    system.kept();
    match solve_in::<i64>(alloc, &system, 100, told as u64, &mut watch) {
        Ok(outcome) => put_outcome(alloc, &mut text, &outcome)?,
        Err(refusal) => put_inner_refusal(&mut text, refusal)?,
    }
    put_told(&mut text, &watch)?;
    Ok(text)
}

// With 64 bits, after so many stages.
#[test]
fn narrow_files(rt: HostRuntime) -> Result<(), Fail> {
    for (text, told, expected) in [
        (
            "amb_space 2 cone 2 1 3 2 1",
            0,
            "amb_space 2\nhomogeneous\n\n4 Hilbert basis elements:\n1 1\n1 2\n1 3\n2 1\ntold: 2 2",
        ),
        (
            "amb_space 2 cone 2 1 3 2 1",
            1,
            "amb_space 2\nhomogeneous\n\n4 Hilbert basis elements:\n1 1\n1 2\n1 3\n2 1\ntold:",
        ),
        (
            "amb_space 2 cone 2 1000000007 1 1000000006 1",
            0,
            "amb_space 2\nhomogeneous\n\n2 Hilbert basis elements:\n1000000006 1\n1000000007 1\ntold: 2 2",
        ),
        (
            "amb_space 2 inequalities 3 1 0 0 1 679891637638612258 -420196140727489673 DualMode",
            0,
            "range after 1\ntold: 2 2",
        ),
        (
            "amb_space 2 inequalities 3 1 0 0 1 679891637638612258 -420196140727489673 DualMode",
            1,
            "range after 1\ntold:",
        ),
    ] {
        let got = narrow(rt.alloc(), text, told)?;
        assert_eq!(rt; got.as_str(), expected, "of {text}");
    }
    Ok(())
}

#[test]
fn worked_files(rt: HostRuntime) -> Result<(), Fail> {
    for (text, limit, passed, expected) in [
        (
            "amb_space 2 congruences 1 1 1 2",
            4,
            None,
            "amb_space 2\nhomogeneous\n\n3 Hilbert basis elements:\n0 2\n1 1\n2 0\ntold: 2 2",
        ),
        (
            "amb_space 2 cone 2 1 3 2 1 HilbertBasis ExtremeRays SupportHyperplanes Triangulation",
            7,
            None,
            "amb_space 2\nhomogeneous\n\n4 Hilbert basis elements:\n1 1\n1 2\n1 3\n2 1\n\n2 extreme rays:\n1 3\n2 1\n\n2 support hyperplanes:\n-1  2\n 3 -1\n\n0 equations:\n\n2 extreme generators:\n1 3\n2 1\n\n1 simplices:\n1 2\ntold: 2 2",
        ),
        ("amb_space 2 cone 2 1 3 2 1", 3, None, "too many\ntold: 2 2"),
        (
            "amb_space 2 cone 2 1 3 2 1",
            3,
            Some(0),
            "stopped 2\ntold: 2 2",
        ),
        (
            "amb_space 2 cone_and_lattice 2 1 0 1 2",
            9,
            None,
            "amb_space 2\nhomogeneous\n\n2 Hilbert basis elements:\n1 0\n1 2\ntold: 2 2",
        ),
        (
            "amb_space 2 equations 1 1 1 HilbertBasis ExtremeRays SupportHyperplanes Triangulation",
            9,
            Some(0),
            "amb_space 2\nhomogeneous\n\n0 Hilbert basis elements:\n\n0 extreme rays:\n\n0 support hyperplanes:\n\n2 equations:\n1 0\n0 1\n\n0 extreme generators:\n\n0 simplices:\ntold:",
        ),
        (
            "amb_space 2 inequalities 1 1 0",
            9,
            Some(0),
            "line: 0 1\ntold:",
        ),
        (
            "amb_space 3 inequalities 1 0 0 1 equations 1 1 2 0 congruences 1 1 0 0 3",
            9,
            Some(0),
            "line: 6 -3 0\ntold:",
        ),
        (
            "amb_space 2 cone 1 1 2 HilbertBasis SupportHyperplanes",
            9,
            None,
            "amb_space 2\nhomogeneous\n\n1 Hilbert basis elements:\n1 2\n\n1 support hyperplanes:\n1 0\n\n1 equations:\n-2 1\ntold: 1 1",
        ),
        (
            "amb_space 3 inequalities 4 1 0 0 0 1 0 -1 0 1 0 -1 1 HilbertBasis ExtremeRays SupportHyperplanes",
            9,
            Some(2),
            "amb_space 3\nhomogeneous\n\n4 Hilbert basis elements:\n0 0 1\n0 1 1\n1 0 1\n1 1 1\n\n4 extreme rays:\n0 0 1\n0 1 1\n1 0 1\n1 1 1\n\n4 support hyperplanes:\n-1  0 1\n 0 -1 1\n 0  1 0\n 1  0 0\n\n0 equations:\ntold: 3 3 4 4",
        ),
        (
            "amb_space 3 inequalities 4 1 0 0 0 1 0 -1 0 1 0 -1 1",
            9,
            Some(1),
            "stopped 4\ntold: 3 3 4 4",
        ),
        (
            "amb_space 2 cone 2 1000000007 1 1000000006 1",
            9,
            None,
            "amb_space 2\nhomogeneous\n\n2 Hilbert basis elements:\n1000000006 1\n1000000007 1\ntold: 2 2",
        ),
        (
            "amb_space 3 cone 3 1000000000000000000 1 0 0 1000000000000000000 1 1 0 1000000000000000000",
            9,
            Some(0),
            "range\ntold:",
        ),
    ] {
        let got = solved(rt.alloc(), text, limit, passed)?;
        assert_eq!(rt; got.as_str(), expected, "of {text}");
    }
    Ok(())
}
