//! Runs of one file in both modes, which give one text, and what the watch is told in each.

use crate::run_tests::{MAGIC, MAGIC_TEXT, run_on};
use std::alloc::Global;
use std::test::Fail;

const CONE: &[u8] = b"amb_space 2\ncone 2\n1 3\n2 1\n";

// Of the cone of (1, 3) and (2, 1) the part under the diagonal.
const HALVED: &[u8] = b"amb_space 2\ncone 2\n1 3\n2 1\ninequalities 1\n1 -1\n";

const ZERO: &[u8] = b"amb_space 2\nequations 1\n1 1\n";

const SHIFTED: &[u8] = b"amb_space 1\nstrict_signs\n1\nask 2\n3\n0\n";

const SHIFTED_TEXT: &[u8] =
    b"amb_space 1\ninhomogeneous\n\n1 module generators:\n1 1\n\n1 Hilbert basis elements of recession monoid:\n1 0\n\n2 asked vectors:\n3: in 2*h1 m1\n0: out 1 -1 >= 0 gives -1\n";

// The quotient of two Fibonacci numbers that follow one another is near the golden one: the list is long, and the one simplex of the
// cone has more points than any limit.
const LONG: &[u8] = b"amb_space 2\ninequalities 3\n1 0\n0 1\n433494437 -267914296\n";

// The same with greater numbers: their products leave 64 bits at the second stage.
const LONGER: &[u8] =
    b"amb_space 2\ninequalities 3\n1 0\n0 1\n679891637638612258 -420196140727489673\n";

const LONG_TEXT: &[u8] =
    b"amb_space 2\nhomogeneous\n\n23 Hilbert basis elements:\n        1         0\n        1         1\n        2         3\n        5         8\n       13        21\n       34        55\n       89       144\n      233       377\n      610       987\n     1597      2584\n     4181      6765\n    10946     17711\n    28657     46368\n    75025    121393\n   196418    317811\n   514229    832040\n  1346269   2178309\n  3524578   5702887\n  9227465  14930352\n 24157817  39088169\n 63245986 102334155\n165580141 267914296\n267914296 433494437\n";

// The 3x3 magic squares whose corners are even, by the sum of a row.
const EVEN_CORNERS: &[u8] =
    b"amb_space 9\nequations 7\n1 1 1 -1 -1 -1 0 0 0\n1 1 1 0 0 0 -1 -1 -1\n0 1 1 -1 0 0 -1 0 0\n1 0 1 0 -1 0 0 -1 0\n1 1 0 0 0 -1 0 0 -1\n0 1 1 0 -1 0 0 0 -1\n1 1 0 0 -1 0 -1 0 0\ncongruences 4\n1 0 0 0 0 0 0 0 0 2\n0 0 1 0 0 0 0 0 0 2\n0 0 0 0 0 0 1 0 0 2\n0 0 0 0 0 0 0 0 1 2\ngrading\n1 1 1 0 0 0 0 0 0\n";

const EVEN_CORNERS_TEXT: &[u8] =
    b"amb_space 9\nhomogeneous\ngrading denominator 3\n\n9 Hilbert basis elements:\n0 4 2 4 2 0 2 0 4\n2 0 4 4 2 0 0 4 2\n2 2 2 2 2 2 2 2 2\n2 4 0 0 2 4 4 0 2\n4 0 2 0 2 4 2 4 0\n2 3 4 5 3 1 2 3 4\n2 5 2 3 3 3 4 1 4\n4 1 4 3 3 3 2 5 2\n4 3 2 1 3 5 4 3 2\n";

// Whether a run with these words, without a stop, prints the line and stores the text.
fn ends_so(
    alloc: Global,
    words: &str,
    input: &[u8],
    line: &[u8],
    stored: Option<&[u8]>,
) -> Result<bool, Fail> {
    let ran = run_on(alloc, words, Some(input), 0, 0, None)?;
    Ok(ran.console.bytes() == line && ran.folder.file("p.out") == stored)
}

// Whether both modes store the text.
fn both_store(alloc: Global, input: &[u8], text: &[u8]) -> Result<bool, Fail> {
    let primal = ends_so(alloc, "p --PrimalMode", input, b"done\n", Some(text))?;
    let dual = ends_so(alloc, "p --DualMode", input, b"done\n", Some(text))?;
    Ok(primal && dual)
}

// Whether a run with these words, stopped after so many stages, prints the line, and its watch is told these pairs.
fn tells(
    alloc: Global,
    words: &str,
    input: &[u8],
    passed: Option<u8>,
    line: &[u8],
    told: &str,
) -> Result<bool, Fail> {
    let ran = run_on(alloc, words, Some(input), 0, 0, passed)?;
    Ok(ran.console.bytes() == line && ran.told.as_str() == told)
}

#[test]
fn one_text(rt: HostRuntime) -> Result<(), Fail> {
    for (input, text) in [
        (
            b"amb_space 2\ncone 2\n1 3\n2 1\nHilbertBasis\nExtremeRays\nSupportHyperplanes\n".as_slice(),
            b"amb_space 2\nhomogeneous\n\n4 Hilbert basis elements:\n1 1\n1 2\n1 3\n2 1\n\n2 extreme rays:\n1 3\n2 1\n\n2 support hyperplanes:\n-1  2\n 3 -1\n\n0 equations:\n".as_slice(),
        ),
        (
            b"amb_space 2\ncone 2\n1 3\n2 1\ngrading\n0 1\nHilbertBasis\nDeg1Elements\n".as_slice(),
            b"amb_space 2\nhomogeneous\ngrading denominator 1\n\n4 Hilbert basis elements:\n1 1\n2 1\n1 2\n1 3\n\n2 degree 1 elements:\n1 1\n2 1\n".as_slice(),
        ),
        (
            b"amb_space 2\ncongruences 1\n1 1 2\ngrading\n1 1\nHilbertBasis\nDeg1Elements\n".as_slice(),
            b"amb_space 2\nhomogeneous\ngrading denominator 2\n\n3 Hilbert basis elements:\n0 2\n1 1\n2 0\n\n3 degree 1 elements:\n0 2\n1 1\n2 0\n".as_slice(),
        ),
        (
            b"amb_space 2\nequations 1\n1 1\ngrading\n1 1\n".as_slice(),
            b"amb_space 2\nhomogeneous\ngrading denominator 1\n\n0 Hilbert basis elements:\n".as_slice(),
        ),
        (
            b"amb_space 1\ninhom_inequalities 1\n1 0\ninhom_congruences 1\n1 1 2\ngrading\n1\nModuleGenerators\n".as_slice(),
            b"amb_space 1\ninhomogeneous\ngrading denominator 2\n\n1 module generators:\n1 1\n".as_slice(),
        ),
        (
            b"amb_space 2\ncone 2\n1 3\n2 1\nask 3\n3 4\n0 0\n1 4\n".as_slice(),
            b"amb_space 2\nhomogeneous\n\n4 Hilbert basis elements:\n1 1\n1 2\n1 3\n2 1\n\n3 asked vectors:\n3 4: in 2*h1 1*h2\n0 0: in\n1 4: out 3 -1 >= 0 gives -1\n".as_slice(),
        ),
        (
            HALVED,
            b"amb_space 2\nhomogeneous\n\n2 Hilbert basis elements:\n1 1\n2 1\n".as_slice(),
        ),
        (
            b"amb_space 2\ncone_and_lattice 2\n1 0\n1 2\nask 1\n1 1\n".as_slice(),
            b"amb_space 2\nhomogeneous\n\n2 Hilbert basis elements:\n1 0\n1 2\n\n1 asked vectors:\n1 1: out 0 1 = 0 mod 2 gives 1\n".as_slice(),
        ),
        (
            ZERO,
            b"amb_space 2\nhomogeneous\n\n0 Hilbert basis elements:\n".as_slice(),
        ),
        (
            b"amb_space 2\ncone 0\n".as_slice(),
            b"amb_space 2\nhomogeneous\n\n0 Hilbert basis elements:\n".as_slice(),
        ),
        (
            b"amb_space 2\ncone 1\n1 2\nHilbertBasis\nSupportHyperplanes\n".as_slice(),
            b"amb_space 2\nhomogeneous\n\n1 Hilbert basis elements:\n1 2\n\n1 support hyperplanes:\n1 0\n\n1 equations:\n-2 1\n".as_slice(),
        ),
        (SHIFTED, SHIFTED_TEXT),
        (
            b"amb_space 1\ninhom_equations 1\n2 -1\n".as_slice(),
            b"amb_space 1\ninhomogeneous\n\n0 module generators:\n\n0 Hilbert basis elements of recession monoid:\n".as_slice(),
        ),
        (
            b"amb_space 1\nvertices 1\n1 2\ncone 1\n1\n".as_slice(),
            b"amb_space 1\ninhomogeneous\n\n1 module generators:\n1 1\n\n1 Hilbert basis elements of recession monoid:\n1 0\n".as_slice(),
        ),
        (MAGIC, MAGIC_TEXT),
    ] {
        assert!(rt; both_store(rt.alloc(), input, text)?);
    }
    Ok(())
}

// Where nothing is stored.
#[test]
fn one_refusal(rt: HostRuntime) -> Result<(), Fail> {
    for (words, input, line) in [
        ("p --Limit 3", CONE, b"too many\n".as_slice()),
        ("p --DualMode --Limit 3", CONE, b"too many\n".as_slice()),
        (
            "p",
            b"amb_space 2\ngrading\n1 -1\n".as_slice(),
            b"grade: 0 1\n".as_slice(),
        ),
        (
            "p --DualMode",
            b"amb_space 2\ngrading\n1 -1\n".as_slice(),
            b"grade: 0 1\n".as_slice(),
        ),
        (
            "p --DualMode",
            b"amb_space 2\ninequalities 1\n1 0\n".as_slice(),
            b"line: 0 1\n".as_slice(),
        ),
    ] {
        assert!(rt; ends_so(rt.alloc(), words, input, line, None)?);
    }
    Ok(())
}

#[test]
fn stages(rt: HostRuntime) -> Result<(), Fail> {
    for (words, input, passed, line, told) in [
        ("p", CONE, None, b"done\n".as_slice(), " 2 2"),
        ("p --DualMode", CONE, None, b"done\n".as_slice(), " 2 4"),
        ("p --Limit 7", CONE, None, b"done\n".as_slice(), " 2 2"),
        (
            "p --DualMode --Limit 7",
            CONE,
            None,
            b"done\n".as_slice(),
            " 2 4",
        ),
        (
            "p --DualMode",
            HALVED,
            None,
            b"done\n".as_slice(),
            " 2 2 3 2",
        ),
        (
            "p --DualMode",
            HALVED,
            Some(0),
            b"stopped at stage 2\n".as_slice(),
            " 2 2",
        ),
        ("p", ZERO, None, b"done\n".as_slice(), ""),
        ("p --DualMode", ZERO, None, b"done\n".as_slice(), " 1 1 2 0"),
        (
            "p",
            b"amb_space 2\ncone 0\n".as_slice(),
            None,
            b"done\n".as_slice(),
            "",
        ),
        (
            "p --DualMode",
            b"amb_space 2\ncone 0\n".as_slice(),
            None,
            b"done\n".as_slice(),
            " 0 0",
        ),
        ("p --DualMode", SHIFTED, None, b"done\n".as_slice(), " 2 2"),
        ("p", MAGIC, None, b"done\n".as_slice(), " 3 3 4 4"),
        (
            "p --DualMode",
            MAGIC,
            None,
            b"done\n".as_slice(),
            " 3 10 4 8 5 8 6 6 7 6 8 5 9 5",
        ),
        (
            "p --DualMode",
            LONGER,
            None,
            b"done\n".as_slice(),
            " 2 2 3 45",
        ),
        (
            "p --DualMode",
            LONG,
            None,
            b"done\n".as_slice(),
            " 2 2 3 23",
        ),
    ] {
        assert!(rt;
            tells(rt.alloc(), words, input, passed, line, told)?,
            "of {words}"
        );
    }
    Ok(())
}

#[test]
fn long_list(rt: HostRuntime) -> Result<(), Fail> {
    assert!(rt; ends_so(rt.alloc(), "p --DualMode", LONG, b"done\n", Some(LONG_TEXT))?);
    Ok(())
}

#[test]
fn ordered_by_degree(rt: HostRuntime) -> Result<(), Fail> {
    assert!(rt; both_store(rt.alloc(), EVEN_CORNERS, EVEN_CORNERS_TEXT)?);
    Ok(())
}
