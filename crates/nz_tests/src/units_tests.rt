//! Runs that list units: monoids with lines and without, and each status that such runs have.
use crate::run_tests::{FIRST, Ran, run_on};
use std::test::Fail;

fn ended(ran: &Ran, code: u8, line: &[u8], stored: Option<&[u8]>) -> bool {
    if ran.folder.file("p.out").is_some() {
        return false;
    }
    ran.code == code && ran.console.bytes() == line && ran.folder.file("p.units") == stored
}

// The units and the representatives of each file; goals and modes do not matter, and nothing is told.
#[test]
fn lists_units(rt: HostRuntime) -> Result<(), Fail> {
    for (words, input, stored) in [
        (
            "--Units p",
            b"amb_space 3 inequalities 2 1 0 0 1 2 0".as_slice(),
            b"amb_space 3\nhomogeneous\n\n1 unit vectors:\n0 0 1\n\n3 irreducible representatives:\n0  1 0\n1  0 0\n2 -1 0\n".as_slice(),
        ),
        (
            "--Units --DualMode --SupportHyperplanes p",
            b"amb_space 2 inequalities 1 2 3 ExtremeRays".as_slice(),
            b"amb_space 2\nhomogeneous\n\n1 unit vectors:\n3 -2\n\n1 irreducible representatives:\n-1 1\n".as_slice(),
        ),
        (
            "--Units p",
            b"amb_space 2 inequalities 1 1 0".as_slice(),
            b"amb_space 2\nhomogeneous\n\n1 unit vectors:\n0 1\n\n1 irreducible representatives:\n1 0\n".as_slice(),
        ),
        (
            "--Units p",
            FIRST,
            b"amb_space 2\nhomogeneous\n\n0 unit vectors:\n\n3 irreducible representatives:\n0 2\n1 1\n2 0\n".as_slice(),
        ),
        (
            "--Units p",
            b"amb_space 2 inhom_inequalities 1 2 3 -1".as_slice(),
            b"amb_space 2\ninhomogeneous\n\n1 unit vectors:\n3 -2 0\n\n1 module representatives:\n-1 1 1\n\n1 irreducible representatives:\n-1 1 0\n".as_slice(),
        ),
        (
            "--Units p",
            b"amb_space 3 inhom_inequalities 2 2 0 0 -1 0 3 1 -2 inequalities 0".as_slice(),
            b"amb_space 3\ninhomogeneous\n\n1 unit vectors:\n0 1 -3 0\n\n1 module representatives:\n1 0 2 1\n\n2 irreducible representatives:\n0 0 1 0\n1 0 0 0\n".as_slice(),
        ),
    ] {
        let ran = run_on(rt.alloc(), words, Some(input), 0, 0, Some(0))?;
        assert!(rt; ended(&ran, 18, b"units done\n", Some(stored)));
        assert!(rt; ran.told.is_empty());
    }
    Ok(())
}

// Without the flag the file with a line is refused.
#[test]
fn a_line_without_the_flag(rt: HostRuntime) -> Result<(), Fail> {
    let ran = run_on(
        rt.alloc(),
        "p",
        Some(b"amb_space 2 inequalities 1 2 3".as_slice()),
        0,
        0,
        None,
    )?;
    assert!(rt; ended(&ran, 8, b"line: 3 -2\n", None));
    Ok(())
}

#[test]
fn refuses_as_it_lists_and_stores(rt: HostRuntime) -> Result<(), Fail> {
    for (words, input, folder_fails, code, line) in [
        ("--Units p", None, 0, 3, b"no input file\n".as_slice()),
        ("--Units p", Some(FIRST), 1, 4, b"read fault\n".as_slice()),
        (
            "--Units p",
            Some(b"amb_space 65".as_slice()),
            0,
            6,
            b"line 1 column 12: TooWide\n".as_slice(),
        ),
        (
            "--Units --Deg1Elements p",
            Some(FIRST),
            0,
            7,
            b"item 0 row 0: NoGrading\n".as_slice(),
        ),
        (
            "--Units --Limit 3 p",
            Some(b"amb_space 3 inequalities 2 1 0 0 1 2 0".as_slice()),
            0,
            11,
            b"too many\n".as_slice(),
        ),
        (
            "--Units p",
            Some(
                b"amb_space 3 cone 3 1000000000000000000 1 0 0 1000000000000000000 1 1 0 1000000000000000000".as_slice(),
            ),
            0,
            10,
            b"range\n".as_slice(),
        ),
        ("--Units p", Some(FIRST), 2, 13, b"write fault\n".as_slice()),
    ] {
        let ran = run_on(rt.alloc(), words, input, folder_fails, 0, None)?;
        assert!(rt; ended(&ran, code, line, None));
    }
    Ok(())
}
