ghost use Rattle.std.specs.Prelude.{◌≤◌, IfOk, length};

use nz_edge::{
    DiskFolder, Folder, LinesWatch, Load, MemFolder, MemSink, Sink, StopWatch, Stored, put_all,
};
use nz_vec::Bytes;
use nz_watch::{MemWatch, Watch};
use std::alloc::Global;
use std::fs;
use std::test::Fail;

// What a load gave, as bytes that can be compared.
fn given(load: &Load) -> &[u8] {
    match load {
        Load::Bytes(bytes) => bytes.as_slice(),
        Load::Absent => b"absent",
        Load::Failed => b"failed",
        Load::NoMemory => b"no memory",
    }
}

// More bytes than two of the pieces in which a file is read.
fn content(alloc: Global) -> Result<Vec<u8>, Fail> {
    let mut bytes = Vec::new(alloc);
    for place in 0..10000u16 {
        bytes.push((place % 251) as u8)?;
    }
    Ok(bytes)
}

// The disk is outside every contract.
#[test]
fn loads_the_first_bytes_of_a_file(rt: HostRuntime) -> Result<(), Fail> {
    let name = "nz_edge_test_file";
    let content = content(rt.alloc())?;
    let mut folder = DiskFolder::new(rt);
    assert_eq!(rt; folder.store(name, content.as_slice()), Stored::Done);
    for (most, length) in [
        (0u16, 1),
        (4095, 4096),
        (4096, 4097),
        (9998, 9999),
        (9999, 10000),
        (20000, 10000),
    ] {
        let load = folder.load(rt.alloc(), name, usize::from(most));
        assert_eq!(rt; given(&load).len(), length, "at {most}");
        assert!(rt; content.starts_with(given(&load)), "at {most}");
    }
    fs::remove_file(&rt, name)?;
    let load = folder.load(rt.alloc(), name, 1);
    assert_eq!(rt; given(&load), b"absent".as_slice());
    Ok(())
}

// One file, as the list that a folder in memory takes.
fn one_file(alloc: Global, name: &str, content: &[u8]) -> Result<Vec<(String, Bytes)>, Fail>
    ensures { IfOk result (λ files. length files.items ≤ 1) }
{
    let mut bytes = Bytes::new(alloc);
    bytes.push_all(content)?;
    let mut files = Vec::new(alloc);
    files.push((String::from_str(alloc, name)?, bytes))?;
    Ok(files)
}

fn folder_answers(alloc: Global) -> Result<bool, Fail> {
    let files = one_file(alloc, "p.in", b"amb_space 2")?;
    let mut folder = MemFolder::new(alloc, files, Vec::new(alloc))?;
    let load = folder.load(alloc, "p.in", 2);
    let is_loaded = given(&load) == b"amb".as_slice();
    let is_stored = folder.store("p.out", b"text") == Stored::Done;
    Ok(is_loaded && is_stored && folder.file("p.out") == Some(b"text".as_slice()))
}

fn sink_answers(alloc: Global) -> Result<bool, Fail> {
    let mut sink = MemSink::new(alloc, 5, Vec::new(alloc))?;
    let is_put = put_all(&mut sink, b"done\n");
    Ok(is_put && sink.bytes() == b"done\n".as_slice())
}

fn watch_answers(alloc: Global) -> Result<bool, Fail> {
    let mut watch = MemWatch::new(alloc, 1, Some(1))?;
    let goes_on = watch.stage(2, 3);
    Ok(!goes_on && watch.pair(0) == Some((2, 3)))
}

// No clause says that memory is left: each call in memory succeeds once.
#[test]
fn answers_in_memory(rt: HostRuntime) -> Result<(), Fail> {
    assert!(rt; folder_answers(rt.alloc())?);
    assert!(rt; sink_answers(rt.alloc())?);
    assert!(rt; watch_answers(rt.alloc())?);
    Ok(())
}

// Standard error is outside every contract.
#[test]
fn stops_after_as_many_stages(rt: HostRuntime) {
    let mut lines = LinesWatch::new(rt);
    assert!(rt; lines.stage(1, 2));
    assert_eq!(rt; lines.pair(0), None);
    let mut watch = StopWatch::new(rt, 2, true);
    for answer in [true, true, false, false] {
        assert_eq!(rt; watch.stage(3, 4), answer);
    }
    assert_eq!(rt; watch.pair(0), None);
}
