ghost use Rattle.std.specs.Prelude.{◌≡◌, ◌≤◌, ◌<◌, ◌^◌, ◌+◌, IfOk, OnOk, OnErr, option_map, take};
ghost use Rattle.nz_edge.specs.Folders.{SameFiles, Stores};
ghost use Rattle.nz_edge.specs.Answers.{LoadGives, LoadBound, LoadCause, StoreLeaves, StoreCause};
ghost use Rattle.nz_edge.specs.Calls.{IsOneMore};
ghost use Rattle.nz_edge.specs.Memory.{HaveDistinctNames, IsNewFolder, LoadCounts, StoreCounts, files_of};
ghost use Rattle.nz_edge.specs.Places.{IsPlaceOf, IsAppended, find_file};

use crate::calls::Calls;
use crate::{Folder, Load, Stored};
use nz_vec::{Bytes, NoMemory};
use nz_watch::raise;
use std::alloc::Global;

/// Files in memory, for tests of a run. The calls with a listed number fail, so that a test can see what a run does then.
#[derive(Drop)]
pub struct MemFolder {
    alloc: Global,
    files: Vec<(String, Bytes)>,
    calls: Calls,
    faults: u64,
    misses: u64,
    store_faults: u64,
}

// The place of the first file of this name.
fn place_of(files: &[(String, Bytes)], name: &str) -> Option<usize>
    ensures { IsPlaceOf files.now name.now result }
{
    for i in 0..files.len() {
        if files[i].0.as_str() == name {
            return Some(i);
        }
    }
    None
}

// The first `most + 1` bytes, or all where there are fewer.
fn first_bytes(alloc: Global, whole: &[u8], most: usize) -> Result<Bytes, NoMemory>
    requires { most < 2 ^ 32 }
    ensures { IfOk result (λ bytes. bytes ≡ take (most + 1) whole.now) }
{
    let mut bytes = Bytes::new(alloc);
    let count = whole.len().min(most + 1);
    match bytes.push_all(&whole[..count]) {
        Ok(()) => Ok(bytes),
        Err(_) => Err(NoMemory),
    }
}

// Puts the bytes in the place of what stands under the name.
fn put(
    alloc: Global,
    files: &mut Vec<(String, Bytes)>,
    name: &str,
    bytes: &[u8],
) -> Result<(), NoMemory>
    ensures ok { OnOk result (Stores name.now bytes.now (find_file files.old.items) (find_file files.new.items)) }
    ensures err { OnErr result (files.new.items ≡ files.old.items) }
{
    let mut copy = Bytes::new(alloc);
    match copy.push_all(bytes) {
        Ok(()) => {}
        Err(_) => return Err(NoMemory),
    }
    match place_of(files, name) {
        Some(i) => {
            files[i].1 = copy;
            Ok(())
        }
        None => append(alloc, files, name, copy),
    }
}

// Appends a file.
fn append(
    alloc: Global,
    files: &mut Vec<(String, Bytes)>,
    name: &str,
    bytes: Bytes,
) -> Result<(), NoMemory>
    ensures ok { OnOk result (IsAppended files.old.items files.new.items name.now bytes) }
    ensures err { OnErr result (files.new.items ≡ files.old.items) }
{
    let name = match String::from_str(alloc, name) {
        Ok(name) => name,
        Err(_) => return Err(NoMemory),
    };
    match files.push((name, bytes)) {
        Ok(()) => Ok(()),
        Err(_) => Err(NoMemory),
    }
}

impl MemFolder {
    /// The folder of these files. The calls of `load` and `store` are numbered together from 1, and those in `fail` fail.
    pub fn new(
        alloc: Global,
        files: Vec<(String, Bytes)>,
        fail: Vec<u64>,
    ) -> Result<MemFolder, NoMemory>
        requires { HaveDistinctNames files.items }
        ensures { IfOk result (λ folder. IsNewFolder files.items fail.items folder) }
    {
        Ok(MemFolder {
            alloc,
            files,
            calls: Calls::new(fail),
            faults: 0,
            misses: 0,
            store_faults: 0,
        })
    }

    /// The bytes that stand under a name, and None exactly where the name is not there.
    pub fn file(&self, name: &str) -> Option<&[u8]>
        ensures { option_map (λ s. s.now) result ≡ files_of self.now name.now }
    {
        match place_of(&self.files, name) {
            Some(i) => Some(self.files[i].1.as_slice()),
            None => None,
        }
    }
}

impl Folder for MemFolder {
    ghost use Rattle.std.specs.Prelude.{Some};
    ghost use Rattle.nz_edge.specs.Memory.{files_of};

    ghost files = { λ f. Some (files_of f) };

    ghost faults = { λ f. f.faults };

    ghost misses = { λ f. f.misses };

    ghost store_faults = { λ f. f.store_faults };

    fn load(&mut self, alloc: Global, name: &str, most: usize) -> Load
        requires { most < 2 ^ 32 }
        ensures files { SameFiles (files_of self.old) (files_of self.new) }
        ensures gives { LoadGives (files_of self.old) name.now most self.old.faults self.new.faults result }
        ensures bounded { LoadBound most result }
        ensures cause { LoadCause self.old.faults self.new.faults self.old.misses self.new.misses result }
        ensures faults_later { self.old.faults ≤ self.new.faults }
        ensures misses_later { self.old.misses ≤ self.new.misses }
        ensures store_faults { self.new.store_faults ≡ self.old.store_faults }
        ensures calls { IsOneMore self.old.calls self.new.calls }
        ensures counts { LoadCounts self.old self.new result }
    {
        if self.calls.next_fails() {
            raise(&mut self.faults);
            return Load::Failed;
        }
        match place_of(&self.files, name) {
            Some(i) => match first_bytes(alloc, self.files[i].1.as_slice(), most) {
                Ok(bytes) => Load::Bytes(bytes),
                Err(_) => Load::NoMemory,
            },
            None => {
                raise(&mut self.misses);
                Load::Absent
            }
        }
    }

    fn store(&mut self, name: &str, bytes: &[u8]) -> Stored
        ensures files { StoreLeaves name.now bytes.now (files_of self.old) (files_of self.new) result }
        ensures cause { StoreCause self.old.store_faults self.new.store_faults result }
        ensures later { self.old.store_faults ≤ self.new.store_faults }
        ensures faults { self.new.faults ≡ self.old.faults }
        ensures misses { self.new.misses ≡ self.old.misses }
        ensures calls { IsOneMore self.old.calls self.new.calls }
        ensures counts { StoreCounts self.old self.new result }
    {
        if self.calls.next_fails() {
            raise(&mut self.store_faults);
            return Stored::Failed;
        }
        match put(self.alloc, &mut self.files, name, bytes) {
            Ok(()) => Stored::Done,
            Err(_) => Stored::NoMemory,
        }
    }
}
