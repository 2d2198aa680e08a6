//! Runs on files that break off or hold a byte that no file has: each is refused at the place and with the fault that its text says.

use crate::run_tests::{MAGIC, MAGIC_TEXT, run_on};
use std::alloc::Global;
use std::test::Fail;

// The squares break off below so many bytes, from the bound before on, with this fault at their end; with none they are a text of a file.
const FAULTS: [(usize, &str); 9] = [
    (1, "NoAmb"),
    (19, "OpenComment"),
    (29, "NoAmb"),
    (30, "Word"),
    (31, "TooFew"),
    (33, ""),
    (42, "Word"),
    (185, "TooFew"),
    (187, ""),
];

// What the width alone gives.
const WIDTH_TEXT: &[u8] =
    b"amb_space 9\nhomogeneous\n\n9 Hilbert basis elements:\n0 0 0 0 0 0 0 0 1\n0 0 0 0 0 0 0 1 0\n0 0 0 0 0 0 1 0 0\n0 0 0 0 0 1 0 0 0\n0 0 0 0 1 0 0 0 0\n0 0 0 1 0 0 0 0 0\n0 0 1 0 0 0 0 0 0\n0 1 0 0 0 0 0 0 0\n1 0 0 0 0 0 0 0 0\n";

// The fault at the end of the first bytes of the squares: where else entries are missing, one that began with a sign is no number.
fn fault_after(prefix: &[u8]) -> &'static str {
    if prefix.ends_with(b"-") || prefix.ends_with(b"-1") {
        return "Number";
    }
    for (bound, fault) in FAULTS {
        if prefix.len() < bound {
            return fault;
        }
    }
    ""
}

// The line of the console for a fault after these bytes.
fn refused_after(alloc: Global, prefix: &[u8], fault: &str) -> Result<String, Fail> {
    let mut line = 1u64;
    let mut column = 1u64;
    for byte in prefix {
        column = column.saturating_add(1);
        if *byte == b'\n' {
            line = line.saturating_add(1);
            column = 1;
        }
    }
    Ok(format!(in alloc; "line {line} column {column}: {fault}\n")?)
}

// Whether the input is refused with this line, and stays as it was.
fn is_refused(alloc: Global, input: &[u8], line: &str) -> Result<bool, Fail> {
    let ran = run_on(alloc, "p", Some(input), 0, 0, None)?;
    let printed = ran.code == 6 && ran.console.bytes() == line.as_bytes();
    Ok(printed && ran.folder.file("p.in") == Some(input) && ran.folder.file("p.out").is_none())
}

// Whether the input is solved, with this text.
fn is_solved(alloc: Global, input: &[u8], text: &[u8]) -> Result<bool, Fail> {
    let ran = run_on(alloc, "p", Some(input), 0, 0, None)?;
    Ok(ran.code == 0 && ran.folder.file("p.out") == Some(text))
}

// Whether the first bytes of the squares end as they should.
fn ends_so(alloc: Global, prefix: &[u8]) -> Result<bool, Fail> {
    let fault = fault_after(prefix);
    if fault.is_empty() {
        let is_width = prefix.len() < 33;
        return is_solved(
            alloc,
            prefix,
            if is_width { WIDTH_TEXT } else { MAGIC_TEXT },
        );
    }
    let line = refused_after(alloc, prefix, fault)?;
    is_refused(alloc, prefix, line.as_str())
}

// The length of the shortest part that ends otherwise.
fn first_wrong_prefix(alloc: Global, file: &[u8]) -> Result<Option<usize>, Fail> {
    for length in 0..file.len() {
        if !ends_so(alloc, &file[..length])? {
            return Ok(Some(length));
        }
    }
    Ok(None)
}

#[test]
fn prefixes(rt: HostRuntime) -> Result<(), Fail> {
    assert_eq!(rt; first_wrong_prefix(rt.alloc(), MAGIC)?, None);
    Ok(())
}

// The file with a zero byte at this place.
fn with_zero(alloc: Global, file: &[u8], place: usize) -> Result<Vec<u8>, Fail> {
    let mut bytes = Vec::new(alloc);
    for other in 0..file.len() {
        bytes.push(if other == place { 0 } else { file[other] })?;
    }
    Ok(bytes)
}

// Whether the file that is broken after these bytes is refused there.
fn is_no_byte(alloc: Global, broken: &[u8], prefix: &[u8]) -> Result<bool, Fail> {
    let line = refused_after(alloc, prefix, "Byte")?;
    is_refused(alloc, broken, line.as_str())
}

// The place of the first blank after the comment where a zero byte is taken otherwise.
fn first_wrong_blank(alloc: Global, file: &[u8], comment: usize) -> Result<Option<usize>, Fail> {
    for place in 0..file.len() {
        let is_blank = file[place] == b' ' || file[place] == b'\n';
        if is_blank && place >= comment {
            let broken = with_zero(alloc, file, place)?;
            if !is_no_byte(alloc, broken.as_slice(), &file[..place])? {
                return Ok(Some(place));
            }
        }
    }
    Ok(None)
}

#[test]
fn zero_bytes(rt: HostRuntime) -> Result<(), Fail> {
    assert_eq!(rt; first_wrong_blank(rt.alloc(), MAGIC, 19)?, None);
    Ok(())
}
