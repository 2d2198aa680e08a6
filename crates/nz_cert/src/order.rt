//! The order of the rows.
ghost use Rattle.std.specs.Prelude.{◌≡◌, ℕ, ◌≤◌, ◌∷◌, ◌-◌, List, length, IfOk, map, true, slice_set};
ghost use Rattle.std.specs.Bool.{MatchBool};
ghost use Rattle.nz_spec.specs.Order.{ListsOnce};
ghost use Rattle.nz_further.specs.Certificates.{IsPlace};
ghost use Rattle.nz_further.specs.CertificateTexts.{Count};
ghost use Rattle.nz_cert.specs.Readings.{IsReading};
ghost use Rattle.nz_cert.specs.Fields.{AreNumbers, IsOrderOf, order_words, IsFree};

use crate::CertTextRefusal;
use crate::fields::{take_count, take_name};
use crate::scan::Words;
use nz_vec::{NoMemory, Places};
use std::alloc::Global;

/// Takes so many numbers.
fn take_numbers(alloc: Global, words: &mut Words<'_>, count: u64) -> Result<Places, CertTextRefusal>
    ensures { IsReading (AreNumbers count) (map Count) words.old words.new result }
{
    let mut numbers = Places::new(alloc);
    for _index in 0..count {
        let number = match take_count(words) {
            Some(number) => number,
            None => return Err(CertTextRefusal::Bad),
        };
        match numbers.push(number as usize) {
            Ok(()) => {}
            Err(_) => return Err(CertTextRefusal::NoMemory),
        }
    }
    Ok(numbers)
}

// Marks a place from 1, where there is such a place and it is not marked.
fn mark(marks: &mut Vec<bool>, place: usize) -> bool
    ensures { MatchBool result (IsFree marks.old.items place × (marks.new.items ≡ slice_set marks.old.items (place - 1) true)) (¬ IsFree marks.old.items place) }
{
    if place == 0 || place > marks.len() {
        return false;
    }
    if marks[place - 1] {
        return false;
    }
    marks[place - 1] = true;
    true
}

// Whether each place stands in the list once, from 1 to the length of the list.
fn has_each_once(alloc: Global, places: &Places) -> Result<bool, NoMemory>
    ensures { IfOk result (λ yes. MatchBool yes (ListsOnce (IsPlace (length places.now)) places.now) (¬ ListsOnce (IsPlace (length places.now)) places.now)) }
{
    let mut marks = match Vec::from_elem(alloc, false, places.len()) {
        Ok(marks) => marks,
        Err(_) => return Err(NoMemory),
    };
    for index in 0..places.len() {
        if !mark(&mut marks, places.at(index)) {
            return Ok(false);
        }
    }
    Ok(true)
}

/// Takes the order of so many rows.
pub fn take_order(
    alloc: Global,
    words: &mut Words<'_>,
    rows: u64,
) -> Result<Places, CertTextRefusal>
    ensures { IsReading (IsOrderOf rows) order_words words.old words.new result }
{
    if !take_name(words, b"order".as_slice()) {
        return Err(CertTextRefusal::Bad);
    }
    let order = match take_numbers(alloc, words, rows) {
        Ok(order) => order,
        Err(refusal) => return Err(refusal),
    };
    match has_each_once(alloc, &order) {
        Ok(true) => Ok(order),
        Ok(false) => Err(CertTextRefusal::Bad),
        Err(_) => Err(CertTextRefusal::NoMemory),
    }
}
