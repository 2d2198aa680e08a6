//! Asked vectors with their answers, at a place of a text.
ghost use Rattle.std.specs.Prelude.{◌≡◌, ◌≢◌, ℕ, ℤ, pos, ◌+◌, ◌<◌, ◌^◌, ◌≤ℤ◌, ◌++◌, ◌∷◌, [], Bool, List, Option, Some, None, drop, length, MatchResult, IfSome, FitsSigned};
ghost use Rattle.std.specs.Int.{w128};
ghost use Rattle.std.specs.List.{flat_map, AllByRecursion as Each};
ghost use Rattle.nz_vec.specs.Texts.{Text};
ghost use Rattle.nz_spec.specs.Vectors.{Vector};
ghost use Rattle.nz_member.specs.declared.reply.Reply.{Reply};
ghost use Rattle.nz_member.specs.declared.reply.Reply.TheVariants.{Parts};
ghost use Rattle.nz_blocks.specs.Held.{IsHeldReply, IsHeldList};
ghost use Rattle.nz_blocks.specs.Outcomes.{Asked};
ghost use Rattle.nz_blocks.specs.AskedLines.{count_words, module_word, reply_text, asked_line};
ghost use Rattle.nz_blocks.specs.Output.{asked_block};
ghost use Rattle.nz_blocks.specs.Readings.{IsShown, IsReadable};

use crate::AskedList;
use crate::reading_answers::{counts, module_at};
use crate::reading_blocks::{behind, heading_at};
use crate::reading_numbers::{Found, is_at};
use crate::reading_outside::outside;
use crate::reading_rows::numbers;
use crate::refusal::BlockRefusal;
use nz_member::Reply;
use nz_vec::Row;
use std::alloc::Global;

// The counts and the module generator, to the end of the line.
fn parts(
    alloc: Global,
    text: &[u8],
    from: usize,
    size: usize,
) -> Result<Found<Reply<i128>>, BlockRefusal>
    ensures { (m : Option ℕ) (cs : Vector) (s : Text) → length cs ≡ size → Each (FitsSigned w128) cs → Each (λ c. pos 0 ≤ℤ c) cs → IfSome m (λ p. p + 1 < 2 ^ 64) → drop from text.now ≡ count_words 1 cs ++ (module_word m ++ 10 ∷ s) → MatchResult result (λ f. (f.value ≡ Parts m cs) × (drop f.next text.now ≡ s)) (λ e. e ≡ BlockRefusal.NoMemory) }
{
    let counts = match counts(alloc, text, from, size) {
        Ok(counts) => counts,
        Err(refusal) => return Err(refusal),
    };
    let module = match module_at(text, counts.next) {
        Some(module) => module,
        None => return Err(BlockRefusal::Bad),
    };
    if is_at(text, module.next, b'\n') {
        return Ok(Found {
            value: Reply::Parts {
                module: module.value,
                counts: counts.value,
            },
            next: module.next + 1,
        });
    }
    Err(BlockRefusal::Bad)
}

// What is answered, to the end of the line, where the Hilbert basis has so many elements.
fn reply(
    alloc: Global,
    text: &[u8],
    from: usize,
    size: usize,
) -> Result<Found<Reply<i128>>, BlockRefusal>
    ensures { (x : Vector) (r : Reply ℤ) (s : Text) → IsHeldReply r → IsShown size x r → drop from text.now ≡ reply_text x r ++ 10 ∷ s → MatchResult result (λ f. (f.value ≡ r) × (drop f.next text.now ≡ s)) (λ e. e ≡ BlockRefusal.NoMemory) }
{
    match behind(text, from, b" in".as_slice()) {
        Some(start) => parts(alloc, text, start, size),
        None => match outside(alloc, text, from) {
            Ok(found) => Ok(Found {
                value: Reply::Outside(found.value),
                next: found.next,
            }),
            Err(refusal) => Err(refusal),
        },
    }
}

// The asked vector of a line.
fn asked_at(
    alloc: Global,
    text: &[u8],
    from: usize,
    size: usize,
) -> Result<Found<(Row<i128>, Reply<i128>)>, BlockRefusal>
    ensures { (level : Bool) (a : Asked) (s : Text) → IsReadable size level a → drop from text.now ≡ asked_line level a ++ s → MatchResult result (λ f. (f.value ≡ a) × (drop f.next text.now ≡ s)) (λ e. e ≡ BlockRefusal.NoMemory) }
{
    let vector = match numbers(alloc, text, from) {
        Ok(vector) => vector,
        Err(refusal) => return Err(refusal),
    };
    if !is_at(text, vector.next, b':') {
        return Err(BlockRefusal::Bad);
    }
    match reply(alloc, text, vector.next + 1, size) {
        Ok(reply) => Ok(Found {
            value: (vector.value, reply.value),
            next: reply.next,
        }),
        Err(refusal) => Err(refusal),
    }
}

// So many asked vectors, each on its line.
fn asked_lines_at(
    alloc: Global,
    text: &[u8],
    from: usize,
    size: usize,
    count: usize,
) -> Result<AskedList, BlockRefusal>
    ensures { (level : Bool) (xs : List Asked) (s : Text) → Each (IsReadable size level) xs → length xs ≡ count → drop from text.now ≡ flat_map (asked_line level) xs ++ s → MatchResult result (λ list. list ≡ xs) (λ e. e ≡ BlockRefusal.NoMemory) }
{
    let mut list = AskedList::new(alloc);
    let mut place = from;
    for _index in 0..count {
        let found = match asked_at(alloc, text, place, size) {
            Ok(found) => found,
            Err(refusal) => return Err(refusal),
        };
        match list.push(found.value) {
            Ok(()) => {}
            Err(_) => return Err(BlockRefusal::NoMemory),
        }
        place = found.next;
    }
    Ok(list)
}

/// The asked vectors, or None where no heading of them stands there.
pub fn asked_at_end(
    alloc: Global,
    text: &[u8],
    from: usize,
    size: usize,
) -> Result<Option<AskedList>, BlockRefusal>
    ensures { (level : Bool) (xs : Option (List Asked)) → IfSome xs (IsHeldList (IsReadable size level)) → drop from text.now ≡ asked_block level xs → MatchResult result (λ list. list ≡ xs) (λ e. e ≡ BlockRefusal.NoMemory) }
{
    let count = match heading_at(text, from, b" asked vectors:".as_slice()) {
        Some(count) => count,
        None => return Ok(None),
    };
    match asked_lines_at(alloc, text, count.next, size, count.value) {
        Ok(list) => Ok(Some(list)),
        Err(refusal) => Err(refusal),
    }
}
