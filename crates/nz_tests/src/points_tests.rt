//! Runs that list lattice points: bounded files and others, with their limits, and each status that such runs have.
use crate::run_tests::{FIRST, Ran, run_on};
use std::test::Fail;

const TRIANGLE: &[u8] = b"amb_space 2 inhom_inequalities 3 1 0 0 0 1 0 -2 -3 7 LatticePoints";

const TRIANGLE_POINTS: &[u8] =
    b"amb_space 2\ninhomogeneous\n\n8 lattice points:\n0 0 1\n0 1 1\n0 2 1\n1 0 1\n1 1 1\n2 0 1\n2 1 1\n3 0 1\n";

fn ended(ran: &Ran, code: u8, line: &[u8], stored: Option<&[u8]>) -> bool {
    if ran.folder.file("p.out").is_some() {
        return false;
    }
    ran.code == code && ran.console.bytes() == line && ran.folder.file("p.points") == stored
}

// The points of each file; modes and other goals do not matter, and nothing is told.
#[test]
fn lists_points(rt: HostRuntime) -> Result<(), Fail> {
    for (words, input, stored) in [
        ("p", TRIANGLE, TRIANGLE_POINTS),
        ("--Limit 8 --DualMode p", TRIANGLE, TRIANGLE_POINTS),
        (
            "--LatticePoints --ExtremeRays p",
            b"amb_space 2 vertices 3 0 0 1 0 7 3 7 0 2".as_slice(),
            TRIANGLE_POINTS,
        ),
        (
            "p",
            b"amb_space 1 inhom_equations 1 2 -1 LatticePoints".as_slice(),
            b"amb_space 1\ninhomogeneous\n\n0 lattice points:\n".as_slice(),
        ),
        (
            "p",
            b"amb_space 1 inhom_inequalities 2 1 0 -1 10 congruences 1 1 3 LatticePoints".as_slice(),
            b"amb_space 1\ninhomogeneous\n\n4 lattice points:\n0 1\n3 1\n6 1\n9 1\n".as_slice(),
        ),
        (
            "--Limit 11 p",
            b"amb_space 4 inhom_inequalities 5 -1 0 0 0 1 0 -1 0 0 1 0 0 -1 0 1 0 0 0 -1 1 -1 -1 -1 -1 2 signs 1 1 1 1 LatticePoints".as_slice(),
            b"amb_space 4\ninhomogeneous\n\n11 lattice points:\n0 0 0 0 1\n0 0 0 1 1\n0 0 1 0 1\n0 0 1 1 1\n0 1 0 0 1\n0 1 0 1 1\n0 1 1 0 1\n1 0 0 0 1\n1 0 0 1 1\n1 0 1 0 1\n1 1 0 0 1\n".as_slice(),
        ),
    ] {
        let ran = run_on(rt.alloc(), words, Some(input), 0, 0, Some(0))?;
        assert!(rt; ended(&ran, 19, b"points\n", Some(stored)));
        assert!(rt; ran.told.is_empty());
    }
    Ok(())
}

#[test]
fn refuses_as_it_lists_and_stores(rt: HostRuntime) -> Result<(), Fail> {
    for (words, input, folder_fails, code, line) in [
        (
            "--LatticePoints p",
            None,
            0,
            3,
            b"no input file\n".as_slice(),
        ),
        (
            "--LatticePoints p",
            Some(FIRST),
            1,
            4,
            b"read fault\n".as_slice(),
        ),
        (
            "--LatticePoints p",
            Some(b"amb_space 65".as_slice()),
            0,
            6,
            b"line 1 column 12: TooWide\n".as_slice(),
        ),
        (
            "--LatticePoints p",
            Some(FIRST),
            0,
            7,
            b"item 0 row 0: NoLevel\n".as_slice(),
        ),
        (
            "--Limit 7 p",
            Some(TRIANGLE),
            0,
            11,
            b"too many\n".as_slice(),
        ),
        ("p", Some(TRIANGLE), 2, 13, b"write fault\n".as_slice()),
        (
            "p",
            Some(b"amb_space 1 strict_signs 1 LatticePoints".as_slice()),
            0,
            20,
            b"unbounded: 1 0\n".as_slice(),
        ),
        (
            "p",
            Some(b"amb_space 2 inhom_inequalities 1 2 3 -1 LatticePoints".as_slice()),
            0,
            20,
            b"unbounded: 3 -2 0\n".as_slice(),
        ),
    ] {
        let ran = run_on(rt.alloc(), words, input, folder_fails, 0, None)?;
        assert!(rt; ended(&ran, code, line, None));
    }
    Ok(())
}

// A flag that names a kind of run stands before the goal.
#[test]
fn a_flag_stands_before_the_goal(rt: HostRuntime) -> Result<(), Fail> {
    let ran = run_on(rt.alloc(), "--Units p", Some(TRIANGLE), 0, 0, None)?;
    assert!(rt; ended(&ran, 18, b"units done\n", None));
    let ran = run_on(rt.alloc(), "--Convert p", Some(TRIANGLE), 0, 0, None)?;
    assert!(rt; ended(&ran, 17, b"converted\n", None));
    Ok(())
}
