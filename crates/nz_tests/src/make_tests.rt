//! Runs of made files: what is stored, what the console shows, what the watch is told, and that no input is read.

use crate::run_tests::run_on;
use std::alloc::Global;
use std::test::Fail;

// What a run of a made file is to leave: the lines of the console, what its watch is told, and how its output begins, where it stores one.
#[derive(Clone, Copy, Drop)]
struct Case {
    words: &'static str,
    code: u8,
    lines: &'static [u8],
    told: &'static str,
    begins: Option<&'static [u8]>,
}

// Whether the run, in a folder without an input, ends so.
fn ends(alloc: Global, case: &Case) -> Result<bool, Fail> {
    let ran = run_on(alloc, case.words, None, 0, 0, None)?;
    let stored = match (ran.folder.file("p.out"), case.begins) {
        (Some(text), Some(begins)) => text.starts_with(begins),
        (None, None) => true,
        _ => false,
    };
    let shown = ran.console.bytes() == case.lines && ran.told.as_str() == case.told;
    Ok(ran.code == case.code && shown && stored)
}

#[test]
fn squares(rt: HostRuntime) -> Result<(), Fail> {
    let twenty =
        b"amb_space 3\nhomogeneous\n\n441 Hilbert basis elements:\n 0  0 1\n 0  1 1\n".as_slice();
    for (words, lines, told, begins) in [
        (
            "--Make 1 p",
            b"done\nmade 1: 4 elements, sum 8\n".as_slice(),
            " 3 3 4 4",
            b"amb_space 3\nhomogeneous\n\n4 Hilbert basis elements:\n0 0 1\n0 1 1\n1 0 1\n1 1 1\n".as_slice(),
        ),
        (
            "--Make 20 p",
            b"done\nmade 20: 441 elements, sum 9261\n".as_slice(),
            " 3 3 4 4",
            twenty,
        ),
        (
            "--Make=20 --DualMode p",
            b"done\nmade 20: 441 elements, sum 9261\n".as_slice(),
            " 3 22 4 441",
            twenty,
        ),
        (
            "--Make 20 --ExtremeRays p",
            b"done\nmade 20: 441 elements, sum 9261\n".as_slice(),
            " 3 3 4 4",
            b"amb_space 3\nhomogeneous\n\n4 extreme rays:\n 0  0 1\n".as_slice(),
        ),
    ] {
        let case = Case {
            words,
            code: 0,
            lines,
            told,
            begins: Some(begins),
        };
        assert!(rt; ends(rt.alloc(), &case)?, "at {words}");
    }
    Ok(())
}

// No summary comes where the run is not done.
#[test]
fn refusals(rt: HostRuntime) -> Result<(), Fail> {
    for (words, code, lines, told) in [
        (
            "--Make 20 --ModuleGenerators p",
            7,
            b"item 0 row 0: NoLevel\n".as_slice(),
            "",
        ),
        (
            "--Make 20 --Limit 400 p",
            11,
            b"too many\n".as_slice(),
            " 3 3 4 4",
        ),
        (
            "--Make 151 p",
            2,
            b"usage: nmz [options] PROJECT\n".as_slice(),
            "",
        ),
    ] {
        let case = Case {
            words,
            code,
            lines,
            told,
            begins: None,
        };
        assert!(rt; ends(rt.alloc(), &case)?, "at {words}");
    }
    Ok(())
}

// The first call of the folder is the store, and a fault of the console after the status line leaves the summary out.
#[test]
fn faults(rt: HostRuntime) -> Result<(), Fail> {
    let unstored = run_on(rt.alloc(), "--Make 2 p", None, 1, 0, None)?;
    assert!(rt; unstored.code == 13 && unstored.console.bytes() == b"write fault\n".as_slice());
    let cut = run_on(rt.alloc(), "--Make 2 p", None, 0, 2, None)?;
    assert!(rt; cut.code == 0 && cut.console.bytes() == b"done\n".as_slice());
    let other = run_on(
        rt.alloc(),
        "--Make 2 p",
        Some(b"amb_space 65".as_slice()),
        0,
        0,
        None,
    )?;
    assert!(rt; other.code == 0 && other.folder.file("p.in") == Some(b"amb_space 65".as_slice()));
    Ok(())
}
