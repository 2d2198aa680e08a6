//! Runs over files, a console and a watch in memory: the worked files, and each status once.
ghost use Rattle.std.specs.Prelude.{◌≤◌, IfOk, IfSome, length};

use nz_edge::{MemFolder, MemSink};
use nz_run::run;
use nz_vec::Bytes;
use nz_watch::{MemWatch, Watch};
use std::alloc::Global;
use std::test::Fail;

pub const FIRST: &[u8] = b"amb_space 2\ncongruences 1\n1 1 2\n";

pub const FIRST_TEXT: &[u8] =
    b"amb_space 2\nhomogeneous\n\n3 Hilbert basis elements:\n0 2\n1 1\n2 0\n";

/// The input file of a project, where there is one.
pub fn files_of(alloc: Global, input: Option<&[u8]>) -> Result<Vec<(String, Bytes)>, Fail>
    ensures { IfOk result (λ files. length files.items ≤ 1) }
{
    let mut files = Vec::new(alloc);
    match input {
        Some(content) => {
            let mut bytes = Bytes::new(alloc);
            bytes.push_all(content)?;
            files.push((String::from_str(alloc, "p.in")?, bytes))?;
        }
        None => {}
    }
    Ok(files)
}

/// The number of a call that is to fail, where one is.
pub fn failing(alloc: Global, call: u64) -> Result<Vec<u64>, Fail> {
    let mut calls = Vec::new(alloc);
    if call > 0 {
        calls.push(call)?;
    }
    Ok(calls)
}

/// The number of the call that asks to stop, after so many that do not.
pub fn stop_at(passed: Option<u8>) -> Option<u64>
    ensures { IfSome result (λ number. 1 ≤ number) }
{
    match passed {
        Some(passed) => Some(passed as u64 + 1),
        None => None,
    }
}

fn told_text(alloc: Global, watch: &Box<dyn Watch>) -> Result<String, Fail> {
    let mut text = String::new(alloc);
    for place in 0..10 {
        match watch.pair(place) {
            Some((number, count)) => write!(text, " {number} {count}")?,
            None => return Ok(text),
        }
    }
    Ok(text)
}

/// What a run left.
#[derive(Drop)]
pub struct Ran {
    pub folder: MemFolder,
    pub console: MemSink,
    pub told: String,
    pub code: u8,
}

/// The words stand behind one another, with a space between two.
pub fn words_of(alloc: Global, line: &str) -> Result<Vec<String>, Fail> {
    let mut words = Vec::new(alloc);
    for part in line.split(' ') {
        words.push(String::from_str(alloc, part)?)?;
    }
    Ok(words)
}

/// A run with the words of the line, on this input as `p.in`, whose watch asks to stop after so many stages.
pub fn run_on(
    alloc: Global,
    line: &str,
    input: Option<&[u8]>,
    folder_fails: u64,
    console_fails: u64,
    passed: Option<u8>,
) -> Result<Ran, Fail> {
    let mut folder = MemFolder::new(
        alloc,
        files_of(alloc, input)?,
        failing(alloc, folder_fails)?,
    )?;
    let mut console = MemSink::new(alloc, 100, failing(alloc, console_fails)?)?;
    let watch = MemWatch::new(alloc, 10, stop_at(passed))?;
    let mut watch: Box<dyn Watch> = Box::new(alloc, watch)?;
    let words = words_of(alloc, line)?;
    let status = run(alloc, &words, &mut folder, &mut console, &mut watch);
    Ok(Ran {
        folder,
        console,
        told: told_text(alloc, &watch)?,
        code: status.code(),
    })
}

fn ended(ran: &Ran, code: u8, line: &[u8], stored: Option<&[u8]>) -> bool {
    ran.code == code && ran.console.bytes() == line && ran.folder.file("p.out") == stored
}

#[test]
fn statuses(rt: HostRuntime) -> Result<(), Fail> {
    for (words, input, folder_fails, console_fails, code, line, stored) in [
        (
            "p",
            Some(FIRST),
            0,
            0,
            0,
            b"done\n".as_slice(),
            Some(FIRST_TEXT),
        ),
        (
            "p.in",
            Some(FIRST),
            0,
            0,
            0,
            b"done\n".as_slice(),
            Some(FIRST_TEXT),
        ),
        (
            "--HilbertBasis --Limit 4 p.in --Stages=0 --Verbose",
            Some(FIRST),
            0,
            0,
            0,
            b"done\n".as_slice(),
            Some(FIRST_TEXT),
        ),
        ("p", Some(FIRST), 0, 1, 0, b"".as_slice(), Some(FIRST_TEXT)),
        (
            "",
            None,
            0,
            0,
            2,
            b"usage: nmz [options] PROJECT\n".as_slice(),
            None,
        ),
        (
            "-x",
            None,
            0,
            0,
            2,
            b"usage: nmz [options] PROJECT\n".as_slice(),
            None,
        ),
        (
            ".in",
            None,
            0,
            0,
            2,
            b"usage: nmz [options] PROJECT\n".as_slice(),
            None,
        ),
        ("p", None, 0, 0, 3, b"no input file\n".as_slice(), None),
        ("p", Some(FIRST), 1, 0, 4, b"read fault\n".as_slice(), None),
        (
            "p",
            Some(b"amb_space 65".as_slice()),
            0,
            0,
            6,
            b"line 1 column 12: TooWide\n".as_slice(),
            None,
        ),
        (
            "p",
            Some(b"amb_space 2\ncongruences 1\n1 1 0\n".as_slice()),
            0,
            0,
            7,
            b"item 1 row 1: Modulus\n".as_slice(),
            None,
        ),
        (
            "p",
            Some(b"amb_space 2\nsigns\n1 2\n".as_slice()),
            0,
            0,
            7,
            b"item 1 row 1: Sign\n".as_slice(),
            None,
        ),
        (
            "p",
            Some(b"amb_space 1\nvertices 2\n1 1\n1 0\n".as_slice()),
            0,
            0,
            7,
            b"item 1 row 2: Denominator\n".as_slice(),
            None,
        ),
        (
            "p",
            Some(b"amb_space 1\ncone 1\n1\ncone_and_lattice 1\n1\n".as_slice()),
            0,
            0,
            7,
            b"item 2 row 0: Mixed\n".as_slice(),
            None,
        ),
        (
            "p",
            Some(b"amb_space 1\ngrading\n1\ngrading\n1\n".as_slice()),
            0,
            0,
            7,
            b"item 2 row 0: Repeated\n".as_slice(),
            None,
        ),
        (
            "--Deg1Elements p",
            Some(FIRST),
            0,
            0,
            7,
            b"item 0 row 0: NoGrading\n".as_slice(),
            None,
        ),
        (
            "p",
            Some(b"amb_space 1\nModuleGenerators\n".as_slice()),
            0,
            0,
            7,
            b"item 0 row 0: NoLevel\n".as_slice(),
            None,
        ),
        (
            "p",
            Some(b"amb_space 2\ngrading\n1 -1\n".as_slice()),
            0,
            0,
            9,
            b"grade: 0 1\n".as_slice(),
            None,
        ),
        (
            "p",
            Some(FIRST),
            2,
            0,
            13,
            b"write fault\n".as_slice(),
            None,
        ),
    ] {
        let ran = run_on(rt.alloc(), words, input, folder_fails, console_fails, None)?;
        assert!(rt; ended(&ran, code, line, stored));
    }
    Ok(())
}

pub const MAGIC: &[u8] =
    b"/* magic squares */\namb_space 9\nequations 7\n1 1 1 -1 -1 -1 0 0 0\n1 1 1 0 0 0 -1 -1 -1\n0 1 1 -1 0 0 -1 0 0\n1 0 1 0 -1 0 0 -1 0\n1 1 0 0 0 -1 0 0 -1\n0 1 1 0 -1 0 0 0 -1\n1 1 0 0 -1 0 -1 0 0\n";

pub const MAGIC_TEXT: &[u8] =
    b"amb_space 9\nhomogeneous\n\n5 Hilbert basis elements:\n0 2 1 2 1 0 1 0 2\n1 0 2 2 1 0 0 2 1\n1 1 1 1 1 1 1 1 1\n1 2 0 0 1 2 2 0 1\n2 0 1 0 1 2 1 2 0\n";

const CONE: &[u8] =
    b"amb_space 2\ncone 2\n1 3\n2 1\nHilbertBasis\nExtremeRays\nSupportHyperplanes\nTriangulation\n";

const CONE_TEXT: &[u8] =
    b"amb_space 2\nhomogeneous\n\n4 Hilbert basis elements:\n1 1\n1 2\n1 3\n2 1\n\n2 extreme rays:\n1 3\n2 1\n\n2 support hyperplanes:\n-1  2\n 3 -1\n\n0 equations:\n\n2 extreme generators:\n1 3\n2 1\n\n1 simplices:\n1 2\n";

fn gives(ran: &Ran, line: &[u8], stored: Option<&[u8]>, told: &str) -> bool {
    ran.console.bytes() == line && ran.folder.file("p.out") == stored && ran.told.as_str() == told
}

// What each file gives: the line, what is stored, and what the watch was told.
#[test]
fn worked_files(rt: HostRuntime) -> Result<(), Fail> {
    for (words, input, passed, line, stored, told) in [
        (
            "p",
            FIRST,
            None,
            b"done\n".as_slice(),
            Some(FIRST_TEXT),
            " 2 2",
        ),
        (
            "p",
            b"amb_space 2\n".as_slice(),
            None,
            b"done\n".as_slice(),
            Some(b"amb_space 2\nhomogeneous\n\n2 Hilbert basis elements:\n0 1\n1 0\n".as_slice()),
            " 2 2",
        ),
        (
            "p",
            b"amb_space 2\ncongruences 1\n1 2 3\n".as_slice(),
            None,
            b"done\n".as_slice(),
            Some(
                b"amb_space 2\nhomogeneous\n\n3 Hilbert basis elements:\n0 3\n1 1\n3 0\n".as_slice(),
            ),
            " 2 2",
        ),
        (
            "p",
            b"amb_space 1 congruences 2 4 8 -3 27 HilbertBasis".as_slice(),
            None,
            b"done\n".as_slice(),
            Some(b"amb_space 1\nhomogeneous\n\n1 Hilbert basis elements:\n18\n".as_slice()),
            " 1 1",
        ),
        (
            "p",
            CONE,
            None,
            b"done\n".as_slice(),
            Some(CONE_TEXT),
            " 2 2",
        ),
        (
            "p --Limit 7",
            CONE,
            None,
            b"done\n".as_slice(),
            Some(CONE_TEXT),
            " 2 2",
        ),
        (
            "p --Limit 3",
            CONE,
            None,
            b"too many\n".as_slice(),
            None,
            " 2 2",
        ),
        (
            "p",
            CONE,
            Some(0),
            b"stopped at stage 2\n".as_slice(),
            None,
            " 2 2",
        ),
        (
            "p",
            b"amb_space 2\ncone_and_lattice 2\n1 0\n1 2\n".as_slice(),
            None,
            b"done\n".as_slice(),
            Some(b"amb_space 2\nhomogeneous\n\n2 Hilbert basis elements:\n1 0\n1 2\n".as_slice()),
            " 2 2",
        ),
        (
            "p",
            b"amb_space 2\ncone 2\n1 0\n1 2\n".as_slice(),
            None,
            b"done\n".as_slice(),
            Some(
                b"amb_space 2\nhomogeneous\n\n3 Hilbert basis elements:\n1 0\n1 1\n1 2\n".as_slice(),
            ),
            " 2 2",
        ),
        (
            "p",
            b"amb_space 2\nequations 1\n1 1\n".as_slice(),
            None,
            b"done\n".as_slice(),
            Some(b"amb_space 2\nhomogeneous\n\n0 Hilbert basis elements:\n".as_slice()),
            "",
        ),
        (
            "p",
            b"amb_space 2\ninequalities 1\n1 0\n".as_slice(),
            None,
            b"line: 0 1\n".as_slice(),
            None,
            "",
        ),
        (
            "p",
            b"amb_space 3 inequalities 1 0 0 1 equations 1 1 2 0 congruences 1 1 0 0 3".as_slice(),
            None,
            b"line: 6 -3 0\n".as_slice(),
            None,
            "",
        ),
        (
            "p",
            MAGIC,
            None,
            b"done\n".as_slice(),
            Some(MAGIC_TEXT),
            " 3 3 4 4",
        ),
        (
            "p",
            MAGIC,
            Some(1),
            b"stopped at stage 4\n".as_slice(),
            None,
            " 3 3 4 4",
        ),
        (
            "p",
            b"amb_space 2\nsigns\n1 -1\n".as_slice(),
            None,
            b"done\n".as_slice(),
            Some(b"amb_space 2\nhomogeneous\n\n2 Hilbert basis elements:\n0 -1\n1  0\n".as_slice()),
            " 2 2",
        ),
        (
            "p",
            b"amb_space 2\ncone 2\n1 0\n1 1000000\n".as_slice(),
            None,
            b"too many\n".as_slice(),
            None,
            " 2 2",
        ),
        (
            "p",
            b"amb_space 3\ncone 3\n1000000000000000000 1 0\n0 1000000000000000000 1\n1 0 1000000000000000000\n".as_slice(),
            None,
            b"range\n".as_slice(),
            None,
            "",
        ),
        (
            "p",
            b"amb_space 2\ncone 2\n1000000007 1\n1000000006 1\n".as_slice(),
            None,
            b"done\n".as_slice(),
            Some(
                b"amb_space 2\nhomogeneous\n\n2 Hilbert basis elements:\n1000000006 1\n1000000007 1\n".as_slice(),
            ),
            " 2 2",
        ),
        (
            "p",
            b"amb_space 2\ncone 0\n".as_slice(),
            None,
            b"done\n".as_slice(),
            Some(b"amb_space 2\nhomogeneous\n\n0 Hilbert basis elements:\n".as_slice()),
            "",
        ),
        (
            "p --SupportHyperplanes",
            b"amb_space 2\ncone 1\n1 2\nHilbertBasis\n".as_slice(),
            None,
            b"done\n".as_slice(),
            Some(
                b"amb_space 2\nhomogeneous\n\n1 Hilbert basis elements:\n1 2\n\n1 support hyperplanes:\n1 0\n\n1 equations:\n-2 1\n".as_slice(),
            ),
            " 1 1",
        ),
    ] {
        let ran = run_on(rt.alloc(), words, Some(input), 0, 0, passed)?;
        assert!(rt; gives(&ran, line, stored, told));
    }
    Ok(())
}

fn push_entry(text: &mut String, entry: u32) -> Result<(), Fail> {
    if entry < 100 {
        text.push_str(" ")?;
    }
    if entry < 10 {
        text.push_str(" ")?;
    }
    write!(text, "{entry}")?;
    Ok(())
}

// The 5,151 vectors of three entries with the sum 100.
fn sums_of_a_hundred(alloc: Global) -> Result<String, Fail> {
    let mut text = String::from_str(
        alloc,
        "amb_space 3\nhomogeneous\n\n5151 Hilbert basis elements:\n",
    )?;
    for number in 0..10_201u32 {
        let first = number / 101;
        let second = number % 101;
        if first + second <= 100 {
            push_entry(&mut text, first)?;
            text.push_str(" ")?;
            push_entry(&mut text, second)?;
            text.push_str(" ")?;
            push_entry(&mut text, 100 - first - second)?;
            text.push_str("\n")?;
        }
    }
    Ok(text)
}

// The 64 unit vectors of 64 entries, the last one first.
fn unit_vectors(alloc: Global) -> Result<String, Fail> {
    let mut text = String::from_str(
        alloc,
        "amb_space 64\nhomogeneous\n\n64 Hilbert basis elements:\n",
    )?;
    for number in 0..4096u32 {
        let column = number % 64;
        let is_one = number / 64 + column == 63;
        text.push_str(if is_one { "1" } else { "0" })?;
        text.push_str(if column == 63 { "\n" } else { " " })?;
    }
    Ok(text)
}

#[test]
fn long_lists(rt: HostRuntime) -> Result<(), Fail> {
    let sums = sums_of_a_hundred(rt.alloc())?;
    let units = unit_vectors(rt.alloc())?;
    for (input, expected) in [
        (
            b"amb_space 3\ncongruences 1\n1 1 1 100\n".as_slice(),
            sums.as_str(),
        ),
        (b"amb_space 64\n".as_slice(), units.as_str()),
    ] {
        let ran = run_on(rt.alloc(), "p", Some(input), 0, 0, None)?;
        assert!(rt; ended(&ran, 0, b"done\n", Some(expected.as_bytes())));
    }
    Ok(())
}

fn spaces(alloc: Global, count: u32) -> Result<Vec<u8>, Fail> {
    let mut bytes = Vec::new(alloc);
    for _byte in 0..count {
        bytes.push(b' ')?;
    }
    Ok(bytes)
}

// What so many spaces give.
fn fails(alloc: Global, count: u32, code: u8, line: &[u8]) -> Result<bool, Fail> {
    let bytes = spaces(alloc, count)?;
    let ran = run_on(alloc, "p", Some(bytes.as_slice()), 0, 0, None)?;
    Ok(ended(&ran, code, line, None))
}

#[test]
fn long_inputs(rt: HostRuntime) -> Result<(), Fail> {
    assert!(rt; fails(rt.alloc(), 16_777_217, 5, b"input too long\n")?);
    assert!(rt;
        fails(
            rt.alloc(),
            16_777_216,
            6,
            b"line 1 column 16777217: NoAmb\n"
        )?
    );
    Ok(())
}
