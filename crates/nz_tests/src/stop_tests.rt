//! Runs that are stopped, refused or met by a fault from outside: what each ends with, that it leaves every file as it was, and what a
//! console without room gets.
ghost use Rattle.std.specs.Prelude.{◌≡◌, ◌≤◌, Some, IfSome};

use crate::run_tests::{
    FIRST, FIRST_TEXT, MAGIC, Ran, failing, files_of, run_on, stop_at, words_of,
};
use nz_edge::{Folder, MemFolder, MemSink, Sink, StopWatch, Stored, Wrote};
use nz_run::run;
use nz_watch::{MemWatch, Watch, raise};
use std::alloc::Global;
use std::test::Fail;

const HALVED: &[u8] = b"amb_space 2\ncone 2\n1 3\n2 1\ninequalities 1\n1 -1\n";

// Whether the run was stopped with this line after these stages, and left the input alone in its folder.
fn was_stopped(ran: &Ran, input: &[u8], line: &[u8], told: &str) -> bool {
    let says = ran.code == 12 && ran.console.bytes() == line && ran.told.as_str() == told;
    says && ran.folder.file("p.in") == Some(input) && ran.folder.file("p.out").is_none()
}

// Each stage of the squares is the last one told where the watch stops there.
#[test]
fn stops(rt: HostRuntime) -> Result<(), Fail> {
    for (words, input, passed, line, told) in [
        (
            "p --DualMode",
            MAGIC,
            0u8,
            b"stopped at stage 3\n".as_slice(),
            " 3 10",
        ),
        (
            "p --DualMode",
            MAGIC,
            1,
            b"stopped at stage 4\n".as_slice(),
            " 3 10 4 8",
        ),
        (
            "p --DualMode",
            MAGIC,
            2,
            b"stopped at stage 5\n".as_slice(),
            " 3 10 4 8 5 8",
        ),
        (
            "p --DualMode",
            MAGIC,
            3,
            b"stopped at stage 6\n".as_slice(),
            " 3 10 4 8 5 8 6 6",
        ),
        (
            "p --DualMode",
            MAGIC,
            4,
            b"stopped at stage 7\n".as_slice(),
            " 3 10 4 8 5 8 6 6 7 6",
        ),
        (
            "p --DualMode",
            MAGIC,
            5,
            b"stopped at stage 8\n".as_slice(),
            " 3 10 4 8 5 8 6 6 7 6 8 5",
        ),
        (
            "p --DualMode",
            MAGIC,
            6,
            b"stopped at stage 9\n".as_slice(),
            " 3 10 4 8 5 8 6 6 7 6 8 5 9 5",
        ),
        ("p", MAGIC, 0, b"stopped at stage 3\n".as_slice(), " 3 3"),
        (
            "p",
            MAGIC,
            1,
            b"stopped at stage 4\n".as_slice(),
            " 3 3 4 4",
        ),
        (
            "p --DualMode",
            HALVED,
            1,
            b"stopped at stage 3\n".as_slice(),
            " 2 2 3 2",
        ),
    ] {
        let ran = run_on(rt.alloc(), words, Some(input), 0, 0, Some(passed))?;
        assert!(rt; was_stopped(&ran, input, line, told), "after {passed}");
    }
    Ok(())
}

// Whether the run on this input ends with this code and line under the watch.
fn ends_under(
    alloc: Global,
    watch: &mut Box<dyn Watch>,
    input: &[u8],
    code: u8,
    line: &[u8],
) -> Result<bool, Fail> {
    let mut folder = MemFolder::new(alloc, files_of(alloc, Some(input))?, Vec::new(alloc))?;
    let mut console = MemSink::new(alloc, 100, Vec::new(alloc))?;
    let words = words_of(alloc, "--DualMode p")?;
    let status = run(alloc, &words, &mut folder, &mut console, watch);
    Ok(status.code() == code && console.bytes() == line)
}

// The watch of the program lets as many stages pass as it is made with.
#[test]
fn stops_of_the_program(rt: HostRuntime) -> Result<(), Fail> {
    for (left, code, line) in [
        (0u64, 12u8, b"stopped at stage 2\n".as_slice()),
        (1, 12, b"stopped at stage 3\n".as_slice()),
        (2, 0, b"done\n".as_slice()),
    ] {
        let watch = StopWatch::new(rt, left, false);
        let mut watch: Box<dyn Watch> = Box::new(rt.alloc(), watch)?;
        assert!(rt;
            ends_under(rt.alloc(), &mut watch, HALVED, code, line)?,
            "after {left}"
        );
    }
    Ok(())
}

const OLDER: &[u8] = b"an older output\n";

const OTHER: &[u8] = b"another file\n";

fn put(folder: &mut MemFolder, name: &str, bytes: &[u8]) -> Result<(), Fail> {
    match folder.store(name, bytes) {
        Stored::Done => Ok(()),
        _ => Err(Fail::from("not stored")),
    }
}

// The folder of an input, of an older output and of another file, of which the call with this number fails. The first two calls make it.
fn full_folder(alloc: Global, input: Option<&[u8]>, fails: u64) -> Result<MemFolder, Fail> {
    let mut folder = MemFolder::new(alloc, files_of(alloc, input)?, failing(alloc, fails)?)?;
    put(&mut folder, "p.out", OLDER)?;
    put(&mut folder, "q.in", OTHER)?;
    Ok(folder)
}

// A run in this folder whose watch asks to stop after so many stages.
fn code_of(
    alloc: Global,
    words: &[String],
    folder: &mut MemFolder,
    passed: Option<u8>,
) -> Result<u8, Fail> {
    let mut console = MemSink::new(alloc, 100, Vec::new(alloc))?;
    let watch = MemWatch::new(alloc, 10, stop_at(passed))?;
    let mut watch: Box<dyn Watch> = Box::new(alloc, watch)?;
    let status = run(alloc, words, folder, &mut console, &mut watch);
    Ok(status.code())
}

// Whether the run ends with this code and leaves each file of its folder as it was, but for the output where it is done.
fn keeps(
    alloc: Global,
    words: &[String],
    input: Option<&[u8]>,
    fails: u64,
    passed: Option<u8>,
    code: u8,
) -> Result<bool, Fail> {
    let mut folder = full_folder(alloc, input, fails)?;
    let ended = code_of(alloc, words, &mut folder, passed)? == code;
    let output = if code == 0 { FIRST_TEXT } else { OLDER };
    let output_is_right = folder.file("p.out") == Some(output);
    Ok(
        ended
            && output_is_right
            && folder.file("p.in") == input
            && folder.file("q.in") == Some(OTHER),
    )
}

// One file for each status, and each call of the folder that can fail: the third loads, and the fourth stores.
#[test]
fn files_stay(rt: HostRuntime) -> Result<(), Fail> {
    let alloc = rt.alloc();
    for (line, input, fails, passed, code) in [
        ("p", Some(FIRST), 0u64, None, 0u8),
        ("p", Some(FIRST), 5, None, 0),
        ("p q", Some(FIRST), 0, None, 2),
        ("p", None, 0, None, 3),
        ("p", Some(FIRST), 3, None, 4),
        ("p", Some(b"amb_space 65".as_slice()), 0, None, 6),
        ("p --Deg1Elements", Some(FIRST), 0, None, 7),
        (
            "p",
            Some(b"amb_space 2 inequalities 1 1 0".as_slice()),
            0,
            None,
            8,
        ),
        (
            "p",
            Some(b"amb_space 2 grading 1 -1".as_slice()),
            0,
            None,
            9,
        ),
        (
            "p",
            Some(
                b"amb_space 3 cone 3 1000000000000000000 1 0 0 1000000000000000000 1 1 0 1000000000000000000".as_slice(),
            ),
            0,
            None,
            10,
        ),
        ("p --Limit 2", Some(FIRST), 0, None, 11),
        ("p --DualMode --Limit 2", Some(FIRST), 0, None, 11),
        ("p", Some(FIRST), 0, Some(0u8), 12),
        ("p", Some(FIRST), 4, None, 13),
    ] {
        let words = words_of(alloc, line)?;
        assert!(rt;
            keeps(alloc, words.as_slice(), input, fails, passed, code)?,
            "code {code}"
        );
    }
    Ok(())
}

// Words that order nothing leave the files alone, though the project's input is there.
#[test]
fn words_without_an_order(rt: HostRuntime) -> Result<(), Fail> {
    let alloc = rt.alloc();
    let none = Vec::new(alloc);
    assert!(rt; keeps(alloc, none.as_slice(), Some(FIRST), 0, None, 2)?);
    for line in [
        "p q",
        "--Limit 0 p",
        "--Limit=250001 p",
        "--DualMode --PrimalMode p",
        "--Verbose --Verbose p",
        "-x p",
        "--Make 151 p",
        ".in",
    ] {
        let words = words_of(alloc, line)?;
        assert!(rt;
            keeps(alloc, words.as_slice(), Some(FIRST), 0, None, 2)?,
            "at {line}"
        );
    }
    Ok(())
}

// The code of a run of the project whose name is so many letters and this ending.
fn code_of_name(alloc: Global, letters: u8, ending: &str) -> Result<u8, Fail> {
    let mut name = String::new(alloc);
    for _letter in 0..letters {
        name.push_str("a")?;
    }
    name.push_str(ending)?;
    let mut words = Vec::new(alloc);
    words.push(name)?;
    let mut folder = full_folder(alloc, Some(FIRST), 0)?;
    code_of(alloc, words.as_slice(), &mut folder, None)
}

// A project of 200 bytes is looked for, and one of 201 is not.
#[test]
fn long_names(rt: HostRuntime) -> Result<(), Fail> {
    for (letters, ending, code) in [
        (200u8, "", 3u8),
        (201, "", 2),
        (200, ".in", 3),
        (201, ".in", 2),
    ] {
        assert_eq!(rt;
            code_of_name(rt.alloc(), letters, ending)?,
            code,
            "at {letters}{ending}"
        );
    }
    Ok(())
}

// A console that takes one byte at a time, as long as it has room.
#[derive(Drop)]
struct NarrowSink {
    bytes: Vec<u8>,
    room: usize,
    faults: u64,
}

impl Sink for NarrowSink {
    ghost use Rattle.std.specs.Prelude.{Some};

    ghost written = { λ s. Some s.bytes.items };

    ghost faults = { λ s. s.faults };

    fn write(&mut self, piece: &[u8]) -> Wrote {
        if piece.is_empty() {
            return Wrote::Took(0);
        }
        if self.bytes.len() < self.room {
            match self.bytes.push(piece[0]) {
                Ok(()) => return Wrote::Took(1),
                Err(_) => {}
            }
        }
        raise(&mut self.faults);
        Wrote::Failed
    }
}

// Whether the run ends with this code, and the console with this room got as many first bytes of the lines.
fn fills(
    alloc: Global,
    words: &str,
    room: usize,
    passed: Option<u8>,
    code: u8,
    lines: &[u8],
) -> Result<bool, Fail> {
    let mut folder = full_folder(alloc, Some(FIRST), 0)?;
    let mut console = NarrowSink {
        bytes: Vec::new(alloc),
        room,
        faults: 0,
    };
    let watch = MemWatch::new(alloc, 10, stop_at(passed))?;
    let mut watch: Box<dyn Watch> = Box::new(alloc, watch)?;
    let words = words_of(alloc, words)?;
    let status = run(alloc, &words, &mut folder, &mut console, &mut watch);
    let shown = lines.len().min(room);
    let is_kept = folder.file("p.out") == Some(OLDER);
    Ok(
        status.code() == code
            && console.bytes.as_slice() == &lines[..shown]
            && is_kept == (code > 0),
    )
}

// The first room in which the lines are shown otherwise.
fn first_wrong_room(
    alloc: Global,
    words: &str,
    passed: Option<u8>,
    code: u8,
    lines: &[u8],
) -> Result<Option<usize>, Fail> {
    for room in 0..40usize {
        if !fills(alloc, words, room, passed, code, lines)? {
            return Ok(Some(room));
        }
    }
    Ok(None)
}

// A console without room for the whole lines changes neither the status nor what is stored.
#[test]
fn narrow_consoles(rt: HostRuntime) -> Result<(), Fail> {
    for (words, passed, code, lines) in [
        ("p", None, 0u8, b"done\n".as_slice()),
        ("p", Some(0u8), 12, b"stopped at stage 2\n".as_slice()),
        (
            "p --Deg1Elements",
            None,
            7,
            b"item 0 row 0: NoGrading\n".as_slice(),
        ),
        (
            "--Make 1 p",
            None,
            0,
            b"done\nmade 1: 4 elements, sum 8\n".as_slice(),
        ),
    ] {
        assert_eq!(rt;
            first_wrong_room(rt.alloc(), words, passed, code, lines)?,
            None,
            "at {words}"
        );
    }
    Ok(())
}
