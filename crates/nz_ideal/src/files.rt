//! The ideal file of a file with monomials.
ghost use Rattle.std.specs.Prelude.{◌≡◌, ◌++◌, ◌∷◌, [], map, pos, IfOk, OnOk};
ghost use Rattle.nz_further.specs.Ideals.{at_level};
ghost use Rattle.nz_system.specs.Meaning.{only_if};
ghost use Rattle.nz_ideal.specs.IdealFiles.{exponents_in, exponents, stays, staying, vertex_item, unit_item, ideal_file};
ghost use Rattle.nz_ideal.specs.IdealRules.{items_refusals};

use crate::NoMemory;
use nz_input::{File, Goals, Item, Items, Kind};
use nz_vec::{Row, Rows, units};
use std::alloc::Global;

// The exponents of a monomial, with the level 1.
fn at_level_one(row: &Row<i64>) -> Result<Row<i64>, NoMemory>
    ensures { IfOk result (λ r. r ≡ at_level (pos 1) row.now) }
{
    let mut entries = row.try_copy()?.into_vec();
    match entries.push(1) {
        Ok(()) => Ok(Row::from_vec(entries)),
        Err(_) => Err(NoMemory),
    }
}

fn push_vertices(vertices: &mut Rows<i64>, rows: &Rows<i64>) -> Result<(), NoMemory>
    ensures { OnOk result (vertices.new ≡ vertices.old ++ map (at_level (pos 1)) rows.now) }
{
    for place in 0..rows.len() {
        vertices.push(at_level_one(rows.at(place))?)?;
    }
    Ok(())
}

// Takes the monomials of an item.
fn push_exponents(vertices: &mut Rows<i64>, item: &Item) -> Result<(), NoMemory>
    ensures { OnOk result (vertices.new ≡ vertices.old ++ map (at_level (pos 1)) (exponents_in item.now.kind item.now.rows)) }
{
    match item.kind {
        Kind::MonomialIdeal => push_vertices(vertices, &item.rows),
        _ => Ok(()),
    }
}

fn vertices(alloc: Global, items: &Items) -> Result<Rows<i64>, NoMemory>
    ensures { IfOk result (λ v. v ≡ map (at_level (pos 1)) (exponents items.now)) }
{
    let mut vertices = Rows::new(alloc);
    for place in 0..items.len() {
        push_exponents(&mut vertices, items.at(place))?;
    }
    Ok(vertices)
}

// Whether an item of this kind stays as it is.
fn stays(kind: Kind) -> bool
    ensures { result ≡ stays kind }
{
    match kind {
        Kind::Grading | Kind::Ask => true,
        _ => false,
    }
}

fn copied_item(item: &Item) -> Result<Item, NoMemory>
    ensures { IfOk result (λ i. i ≡ item.now) }
{
    Ok(Item {
        kind: item.kind,
        rows: item.rows.try_copy()?,
    })
}

// Takes an item that stays.
fn push_staying(list: &mut Items, item: &Item) -> Result<(), NoMemory>
    ensures { OnOk result (list.new ≡ list.old ++ only_if (stays item.now.kind) (item.now ∷ [])) }
{
    if !stays(item.kind) {
        return Ok(());
    }
    list.push(copied_item(item)?)
}

// The vertices and the cone.
fn first_items(alloc: Global, amb: u32, items: &Items) -> Result<Items, NoMemory>
    ensures { IfOk result (λ i. i ≡ vertex_item (exponents items.now) ∷ unit_item amb ∷ []) }
{
    let mut list = Items::new(alloc);
    list.push(Item {
        kind: Kind::Vertices,
        rows: vertices(alloc, items)?,
    })?;
    list.push(Item {
        kind: Kind::Cone,
        rows: Rows::from_vec(units(alloc, amb as usize)?),
    })?;
    Ok(list)
}

fn ideal_items(alloc: Global, amb: u32, items: &Items) -> Result<Items, NoMemory>
    ensures { IfOk result (λ i. i ≡ vertex_item (exponents items.now) ∷ unit_item amb ∷ staying items.now) }
{
    let mut list = first_items(alloc, amb, items)?;
    for place in 0..items.len() {
        push_staying(&mut list, items.at(place))?;
    }
    Ok(list)
}

fn copied_goals(alloc: Global, goals: &Goals) -> Result<Goals, NoMemory>
    ensures { IfOk result (λ g. g ≡ goals.now) }
{
    let mut list = Goals::new(alloc);
    for place in 0..goals.len() {
        list.push(goals.at(place))?;
    }
    Ok(list)
}

/// The ideal file of a file whose items break no rule.
pub(crate) fn ideal_file(alloc: Global, file: &File) -> Result<File, NoMemory>
    requires meets { items_refusals [] file.now.items ≡ [] }
    ensures { IfOk result (λ f. f ≡ ideal_file file.now) }
{
    file.kept();
    let items = ideal_items(alloc, file.amb, &file.items)?;
    let goals = copied_goals(alloc, &file.goals)?;
    Ok(File {
        amb: file.amb,
        items,
        goals,
    })
}
