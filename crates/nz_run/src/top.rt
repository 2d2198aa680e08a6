//! The top call.
ghost use Rattle.std.specs.Prelude.{◌≡◌, ◌≤◌, ◌++◌, None, Some, IfOk, string_bytes};
ghost use Rattle.nz_edge.specs.Folders.{BothTold};
ghost use Rattle.nz_words.specs.Parts.{bytes_of_each};
ghost use Rattle.nz_words.specs.Orders.{AreRefused, OrderData, IsOrder, input_name};
ghost use Rattle.nz_input.specs.Canonical.{canonical};
ghost use Rattle.nz_make.specs.Squares.{made_file};
ghost use Rattle.nz_run.specs.Runs.{Explains, ExplainsOrder, Decided, Leaves, CountRose, StoreCount, IsSideOf, IsUnasked, AreUnasked, output_name};
ghost use Rattle.nz_run.specs.Watches.{WatchSays};
ghost use Rattle.nz_run.specs.Summaries.{PutsLines};
ghost use Rattle.nz_run.specs.Closures.{StoresClosures};

use crate::Status;
use crate::finding::{FoundText, MOST, found};
use crate::kinds::RunKind;
use crate::laws::closures_are_stored;
use crate::status_lines::put_lines;
use nz_edge::{Folder, Load, Sink, Stored};
use nz_input::write;
use nz_make::{irreducibles_are_points, made};
use nz_vec::{Bytes, NoMemory};
use nz_watch::Watch;
use nz_words::{RunOrder, WordsRefusal, order};
use std::alloc::Global;

fn file_name(alloc: Global, project: &str, ending: &str) -> Result<String, NoMemory>
    ensures { IfOk result (λ name. string_bytes name ≡ project.now ++ ending.now) }
{
    let mut name = match String::from_str(alloc, project) {
        Ok(name) => name,
        Err(_) => return Err(NoMemory),
    };
    match name.push_str(ending) {
        Ok(()) => Ok(name),
        Err(_) => Err(NoMemory),
    }
}

// Finds the text for what was loaded, and stores it.
fn find_and_store<F: Folder>(
    alloc: Global,
    order: &RunOrder,
    input: &[u8],
    folder: &mut F,
    watch: &mut Box<dyn Watch>,
) -> Status
    ensures outcome { BothTold (F.files folder.old) (F.files folder.new) (Leaves order.now (seen watch.old) (seen watch.new) input.now result) }
    ensures watch { WatchSays result (seen watch.old) (seen watch.new) }
    ensures count { StoreCount result (F.store_faults folder.old) (F.store_faults folder.new) }
    ensures faults { F.faults folder.new ≡ F.faults folder.old }
    ensures misses { F.misses folder.new ≡ F.misses folder.old }
    ensures later { F.store_faults folder.old ≤ F.store_faults folder.new }
{
    let FoundText { kind, text } = match found(alloc, order, input, watch) {
        Ok(found) => found,
        Err(status) => return status,
    };
    let name = match output_name(alloc, order, kind) {
        Ok(name) => name,
        Err(_) => return Status::NoMemory,
    };
    match folder.store(name.as_str(), text.as_slice()) {
        Stored::Done => kind.status_when_stored(),
        Stored::Failed => Status::WriteFault,
        Stored::NoMemory => Status::NoMemory,
    }
}

// The name of the file that the run reads, where none is made for it.
fn input_name(alloc: Global, order: &RunOrder) -> Result<String, NoMemory>
    ensures { IfOk result (λ name. string_bytes name ≡ input_name order.now.project) }
{
    file_name(alloc, order.project.as_str(), ".in")
}

// The name of the file that the run stores, where it is of this kind.
fn output_name(alloc: Global, order: &RunOrder, kind: RunKind) -> Result<String, NoMemory>
    ensures { IfOk result (λ name. string_bytes name ≡ output_name order.now kind) }
{
    file_name(alloc, order.project.as_str(), kind.ending())
}

// The run that is ordered, whose file is loaded, up to its lines.
fn run_loaded<F: Folder>(
    alloc: Global,
    order: &RunOrder,
    folder: &mut F,
    watch: &mut Box<dyn Watch>,
) -> Status
    requires { order.now.make ≡ None }
    ensures outcome { BothTold (F.files folder.old) (F.files folder.new) (ExplainsOrder order.now (seen watch.old) (seen watch.new) (F.faults folder.old) (F.faults folder.new) result) }
    ensures watch { WatchSays result (seen watch.old) (seen watch.new) }
    ensures count { CountRose result (F.faults folder.old) (F.faults folder.new) (F.misses folder.old) (F.misses folder.new) (F.store_faults folder.old) (F.store_faults folder.new) }
    ensures not_usage { ¬ (result ≡ Status.Usage) }
{
    let input_name = match input_name(alloc, order) {
        Ok(name) => name,
        Err(_) => return Status::NoMemory,
    };
    match folder.load(alloc, input_name.as_str(), MOST) {
        Load::Bytes(input) => find_and_store(alloc, order, input.as_slice(), folder, watch),
        Load::Absent => Status::Absent,
        Load::Failed => Status::ReadFault,
        Load::NoMemory => Status::NoMemory,
    }
}

// The text of the file that is made for this side.
fn made_text(alloc: Global, side: u32) -> Result<Bytes, NoMemory>
    requires low { 1 ≤ side }
    requires high { side ≤ 150 }
    ensures { IfOk result (λ text. text ≡ canonical (made_file side)) }
{
    let file = match made(alloc, side) {
        Ok(file) => file,
        Err(refusal) => return Err(refusal),
    };
    write(alloc, &file)
}

// The run that is ordered, whose file is made for this side, up to its lines. It asks the folder for none.
fn run_made<F: Folder>(
    alloc: Global,
    side: u32,
    order: &RunOrder,
    folder: &mut F,
    watch: &mut Box<dyn Watch>,
) -> Status
    requires low { 1 ≤ side }
    requires high { side ≤ 150 }
    requires made { order.now.make ≡ Some side }
    ensures outcome { BothTold (F.files folder.old) (F.files folder.new) (ExplainsOrder order.now (seen watch.old) (seen watch.new) (F.faults folder.old) (F.faults folder.new) result) }
    ensures watch { WatchSays result (seen watch.old) (seen watch.new) }
    ensures count { CountRose result (F.faults folder.old) (F.faults folder.new) (F.misses folder.old) (F.misses folder.new) (F.store_faults folder.old) (F.store_faults folder.new) }
    ensures not_usage { ¬ (result ≡ Status.Usage) }
    ensures faults { F.faults folder.new ≡ F.faults folder.old }
    ensures misses { F.misses folder.new ≡ F.misses folder.old }
{
    let input = match made_text(alloc, side) {
        Ok(input) => input,
        Err(_) => return Status::NoMemory,
    };
    find_and_store(alloc, order, input.as_slice(), folder, watch)
}

// The run that is ordered, up to its lines.
fn run_order<F: Folder>(
    alloc: Global,
    order: &RunOrder,
    folder: &mut F,
    watch: &mut Box<dyn Watch>,
) -> Status
    requires { IsSideOf order.now.make }
    ensures outcome { BothTold (F.files folder.old) (F.files folder.new) (ExplainsOrder order.now (seen watch.old) (seen watch.new) (F.faults folder.old) (F.faults folder.new) result) }
    ensures watch { WatchSays result (seen watch.old) (seen watch.new) }
    ensures count { CountRose result (F.faults folder.old) (F.faults folder.new) (F.misses folder.old) (F.misses folder.new) (F.store_faults folder.old) (F.store_faults folder.new) }
    ensures not_usage { ¬ (result ≡ Status.Usage) }
    ensures unasked { IsUnasked order.now.make (F.faults folder.old) (F.faults folder.new) (F.misses folder.old) (F.misses folder.new) }
{
    match order.make {
        Some(side) => run_made(alloc, side, order, folder, watch),
        None => run_loaded(alloc, order, folder, watch),
    }
}

// How a run ended, and the side of the file that was made for it.
#[derive(Drop)]
struct Ended {
    status: Status,
    side: Option<u32>,
}

// The run, up to its lines.
fn run_words<F: Folder>(
    alloc: Global,
    words: &[String],
    folder: &mut F,
    watch: &mut Box<dyn Watch>,
) -> Ended
    ensures outcome { BothTold (F.files folder.old) (F.files folder.new) (Explains (bytes_of_each words.now) (seen watch.old) (seen watch.new) (F.faults folder.old) (F.faults folder.new) result.status) }
    ensures watch { WatchSays result.status (seen watch.old) (seen watch.new) }
    ensures usage { result.status ≡ Status.Usage → AreRefused (bytes_of_each words.now) }
    ensures usage_always { AreRefused (bytes_of_each words.now) → Decided result.status Status.Usage }
    ensures count { CountRose result.status (F.faults folder.old) (F.faults folder.new) (F.misses folder.old) (F.misses folder.new) (F.store_faults folder.old) (F.store_faults folder.new) }
    ensures unasked { AreUnasked (bytes_of_each words.now) (F.faults folder.old) (F.faults folder.new) (F.misses folder.old) (F.misses folder.new) }
    ensures side { IsSideOf result.side }
    ensures ordered { result.status ≡ Status.Done → (order : OrderData) × IsOrder (bytes_of_each words.now) order × (order.make ≡ result.side) }
{
    match order(alloc, words) {
        Ok(order) => {
            let status = run_order(alloc, &order, folder, watch);
            Ended {
                status,
                side: order.make,
            }
        }
        Err(WordsRefusal::Usage) => Ended {
            status: Status::Usage,
            side: None,
        },
        Err(WordsRefusal::NoMemory) => Ended {
            status: Status::NoMemory,
            side: None,
        },
    }
}

/// One run of the program: reads `<project>.in`, solves it, stores `<project>.out`, and writes the status line to the console. A
/// conversion stores the canonical text of the file as `<project>.conv` and solves nothing.
///
/// Where the words have a file made, that file is taken in the place of `<project>.in`, and after Done comes its summary line.
///
/// The words are those after the program's own name. Every file that breaks no rule of meaning is taken, in both modes. The watch is
/// told the stages of the system's algorithm as they are passed.
pub fn run<F: Folder, S: Sink>(
    alloc: Global,
    words: &[String],
    folder: &mut F,
    console: &mut S,
    watch: &mut Box<dyn Watch>,
) -> Status
    // What the status says of the words, the input, the files and the watch. At Done the stored text has exactly what the input's file
    // and the words ask: what degrees are divided by, where a grading is given, the module generators, the Hilbert basis, its elements of
    // degree 1, the vertices, the extreme rays, the support hyperplanes and equations, a cover, and each asked vector with its parts or
    // the first constraint that it breaks; and the watch was told all stages of the file's system in the mode of file and words. A file
    // with a line, with an element of the Hilbert basis whose degree is 0 or less, or with more irreducible elements than the limit never
    // gives Done. At Converted, which comes in conversions and in no other run, the stored text is the canonical text of the input's file;
    // a conversion tells the watch nothing. Each refusal has its cause, and leaves every file as it was; only WriteFault leaves what
    // stands under the output's name open.
    ensures outcome { BothTold (F.files folder.old) (F.files folder.new) (Explains (bytes_of_each words.now) (seen watch.old) (seen watch.new) (F.faults folder.old) (F.faults folder.new) result) }

    // At Done, where the file has monomials, the module generators that are stored are just the minimal generators of the integral
    // closure of their ideal, each with 1 added, and the Hilbert basis just the unit vectors.
    ensures closures { BothTold (F.files folder.old) (F.files folder.new) (StoresClosures (bytes_of_each words.now) result) }

    // Words that order nothing are refused, and no others.
    ensures usage { result ≡ Status.Usage → AreRefused (bytes_of_each words.now) }
    ensures usage_always { AreRefused (bytes_of_each words.now) → Decided result Status.Usage }

    // Absent, ReadFault and WriteFault come only where the folder counted such a fault in this call.
    ensures count { CountRose result (F.faults folder.old) (F.faults folder.new) (F.misses folder.old) (F.misses folder.new) (F.store_faults folder.old) (F.store_faults folder.new) }

    // Stopped comes just where the watch stopped the run, and before the meaning of the file is clear the watch is told nothing.
    ensures watch { WatchSays result (seen watch.old) (seen watch.new) }

    // Where the words have a file made, the folder is not asked for one.
    ensures unasked { AreUnasked (bytes_of_each words.now) (F.faults folder.old) (F.faults folder.new) (F.misses folder.old) (F.misses folder.new) }

    // The console grew by the status line, and at Done of a made file by the number of the elements of its Hilbert basis and the sum of
    // their entries, or after a fault by some first bytes of these.
    ensures console { BothTold (S.written console.old) (S.written console.new) (PutsLines (bytes_of_each words.now) (S.faults console.old) (S.faults console.new) result) }
{
    let Ended { status, side } = run_words(alloc, words, folder, watch);
    irreducibles_are_points();
    closures_are_stored();
    let _written = put_lines(console, &status, side);
    status
}
