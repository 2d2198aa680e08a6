//! Conversions over files and a console in memory: what is stored, each status that they have, and that nothing is solved.
use crate::run_tests::{FIRST, Ran, run_on};
use std::test::Fail;

fn ended(ran: &Ran, code: u8, line: &[u8], stored: Option<&[u8]>) -> bool {
    if ran.folder.file("p.out").is_some() {
        return false;
    }
    ran.code == code && ran.console.bytes() == line && ran.folder.file("p.conv") == stored
}

// What each file is converted to; rules of meaning, goals, modes and the limit do not matter.
#[test]
fn converts_files(rt: HostRuntime) -> Result<(), Fail> {
    for (words, input, stored) in [
        ("--Convert p", FIRST, FIRST),
        (
            "--Convert --DualMode --Limit 1 --Stages 0 p.in",
            b"/* two */ amb_space 1 congruences 2 +4 08 -3 27 HilbertBasis DualMode".as_slice(),
            b"amb_space 1\ncongruences 2\n4 8\n-3 27\nHilbertBasis\nDualMode\n".as_slice(),
        ),
        (
            "--Deg1Elements --Convert p",
            b"amb_space 2\ncongruences 1\n1 1 0\n".as_slice(),
            b"amb_space 2\ncongruences 1\n1 1 0\n".as_slice(),
        ),
    ] {
        let ran = run_on(rt.alloc(), words, Some(input), 0, 0, Some(0))?;
        assert!(rt; ended(&ran, 17, b"converted\n", Some(stored)));
        assert!(rt; ran.told.is_empty());
    }
    Ok(())
}

#[test]
fn converts_a_made_file(rt: HostRuntime) -> Result<(), Fail> {
    let ran = run_on(rt.alloc(), "--Make 1 --Convert p", None, 0, 0, None)?;
    assert!(rt;
        ended(
            &ran,
            17,
            b"converted\n",
            Some(b"amb_space 3\ncone 4\n0 0 1\n1 0 1\n0 1 1\n1 1 1\n")
        )
    );
    Ok(())
}

#[test]
fn refuses_as_it_reads_and_stores(rt: HostRuntime) -> Result<(), Fail> {
    for (input, folder_fails, code, line) in [
        (None, 0, 3, b"no input file\n".as_slice()),
        (Some(FIRST), 1, 4, b"read fault\n".as_slice()),
        (
            Some(b"amb_space 65".as_slice()),
            0,
            6,
            b"line 1 column 12: TooWide\n".as_slice(),
        ),
        (Some(FIRST), 2, 13, b"write fault\n".as_slice()),
    ] {
        let ran = run_on(rt.alloc(), "--Convert p", input, folder_fails, 0, None)?;
        assert!(rt; ended(&ran, code, line, None));
    }
    Ok(())
}
