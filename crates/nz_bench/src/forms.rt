//! The rows of a file.
ghost use Rattle.std.specs.Prelude.{IfOk};
ghost use Rattle.std.specs.List.{AllByRecursion as Each};
ghost use Rattle.nz_spec.specs.Vectors.{HasWidth};

use nz_input::{File, Item};
use nz_vec::{NoMemory, Rows};
use std::alloc::Global;

/// The rows of this width of all items.
pub fn forms_of(alloc: Global, file: &File, width: usize) -> Result<Rows<i64>, NoMemory>
    ensures { IfOk result (Each (HasWidth width)) }
{
    let mut forms = Rows::new(alloc);
    for place in 0..file.items.len() {
        forms = match with_item(forms, file.items.at(place), width) {
            Ok(forms) => forms,
            Err(refusal) => return Err(refusal),
        };
    }
    Ok(forms)
}

// The rows with those of the item.
fn with_item(mut forms: Rows<i64>, item: &Item, width: usize) -> Result<Rows<i64>, NoMemory>
    requires { Each (HasWidth width) forms }
    ensures { IfOk result (Each (HasWidth width)) }
{
    for index in 0..item.rows.len() {
        let row = item.rows.at(index);
        if row.len() == width {
            let copy = match row.try_copy() {
                Ok(copy) => copy,
                Err(refusal) => return Err(refusal),
            };
            match forms.push(copy) {
                Ok(()) => {}
                Err(refusal) => return Err(refusal),
            }
        }
    }
    Ok(forms)
}
