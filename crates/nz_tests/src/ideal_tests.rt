//! Runs on files with monomials: the integral closures of some ideals, and the rules of such files.
use crate::run_tests::run_on;
use std::alloc::Global;
use std::test::Fail;

const SQUARES: &[u8] = b"amb_space 2\nmonomial_ideal 2\n2 0\n0 2\nask 2\n2 2\n1 0\n";

const SQUARES_TEXT: &[u8] =
    b"amb_space 2\ninhomogeneous\n\n3 module generators:\n0 2 1\n1 1 1\n2 0 1\n\n2 Hilbert basis elements of recession monoid:\n0 1 0\n1 0 0\n\n2 asked vectors:\n2 2: in 2*h1 m3\n1 0: out 1 1 -2 >= 0 gives -1\n";

const SLANTED_TEXT: &[u8] =
    b"amb_space 2\ninhomogeneous\n\n3 module generators:\n0 2 1\n2 1 1\n3 0 1\n\n2 Hilbert basis elements of recession monoid:\n0 1 0\n1 0 0\n";

const NONE_TEXT: &[u8] =
    b"amb_space 1\ninhomogeneous\n\n0 module generators:\n\n1 Hilbert basis elements of recession monoid:\n1 0\n";

const POWERS_TEXT: &[u8] =
    b"amb_space 3\ninhomogeneous\n\n8 module generators:\n0 0 2 1\n0 2 1 1\n0 3 0 1\n1 1 1 1\n2 2 0 1\n3 0 1 1\n4 1 0 1\n5 0 0 1\n\n3 Hilbert basis elements of recession monoid:\n0 0 1 0\n0 1 0 0\n1 0 0 0\n";

// The closure of each ideal, in both modes.
#[test]
fn closures(rt: HostRuntime) -> Result<(), Fail> {
    for (input, stored) in [
        (SQUARES, SQUARES_TEXT),
        (
            b"amb_space 2 monomial_ideal 2 3 0 0 2".as_slice(),
            SLANTED_TEXT,
        ),
        (b"amb_space 1 monomial_ideal 0".as_slice(), NONE_TEXT),
        (
            b"amb_space 3 monomial_ideal 3 5 0 0 0 3 0 0 0 2".as_slice(),
            POWERS_TEXT,
        ),
    ] {
        for words in ["p", "--DualMode p"] {
            let ran = run_on(rt.alloc(), words, Some(input), 0, 0, None)?;
            assert!(rt; ran.code == 0);
            assert!(rt; ran.folder.file("p.out") == Some(stored));
        }
    }
    Ok(())
}

// The first rule that each file breaks.
#[test]
fn rules(rt: HostRuntime) -> Result<(), Fail> {
    for (input, line) in [
        (
            b"amb_space 1 monomial_ideal 1 -1".as_slice(),
            b"item 1 row 1: Exponent\n".as_slice(),
        ),
        (
            b"amb_space 1 monomial_ideal 1 1 cone 1 1".as_slice(),
            b"item 2 row 0: Mixed\n".as_slice(),
        ),
        (
            b"amb_space 1 ask 1 1 inequalities 0 monomial_ideal 1 -1".as_slice(),
            b"item 2 row 0: Mixed\n".as_slice(),
        ),
        (
            b"amb_space 1 grading 1 monomial_ideal 0 grading 1".as_slice(),
            b"item 3 row 0: Repeated\n".as_slice(),
        ),
        (
            b"amb_space 1 monomial_ideal 0 Deg1Elements".as_slice(),
            b"item 0 row 0: NoGrading\n".as_slice(),
        ),
    ] {
        let ran = run_on(rt.alloc(), "p", Some(input), 0, 0, None)?;
        assert!(rt; ran.code == 7);
        assert!(rt; ran.console.bytes() == line);
    }
    Ok(())
}

// As many rows as a file of monomials may have, and one more.
fn many_rows(alloc: Global, rows: u16) -> Result<u8, Fail> {
    let mut input = String::new(alloc);
    write!(input, "amb_space 1 monomial_ideal {rows}")?;
    for _ in 0..rows {
        write!(input, " 1")?;
    }
    let ran = run_on(alloc, "p", Some(input.as_bytes()), 0, 0, None)?;
    Ok(ran.code)
}

#[test]
fn row_limit(rt: HostRuntime) -> Result<(), Fail> {
    assert!(rt; many_rows(rt.alloc(), 960)? == 0);
    assert!(rt; many_rows(rt.alloc(), 961)? == 7);
    Ok(())
}
