//! The engines, one after the other.
ghost use Rattle.std.specs.Prelude.{◌≡◌, ◌<◌, length, IfOk, IfSome};
ghost use Rattle.std.specs.List.{AllByRecursion as Each};
ghost use Rattle.nz_spec.specs.Vectors.{HasWidth};
ghost use Rattle.nz_spec.specs.Covers.{vectors_at};
ghost use Rattle.nz_pointed.specs.Pointed.{IsSimplexOf};
ghost use Rattle.nz_reducer.specs.Reducers.{AreSeparated};

use crate::tables::{Asking, asked, asking_of};
use nz_classes::walk;
use nz_cover::place;
use nz_dual::dual;
use nz_pointed::{Pointed, Simplex, start};
use nz_rays::Double;
use nz_reducer::irreducibles;
use nz_vec::{NoMemory, Places, Rows};
use nz_watch::{QuietWatch, Watch};
use std::alloc::Global;

/// What is measured.
#[derive(Clone, Copy)]
pub enum Engine {
    /// The extreme rays of the cone of all rows.
    Rays,
    /// The points of the parallelepiped of the rays of the first independent rows.
    Walk,
    /// These points, reduced by all rows.
    Reduce,
    /// The simplices of a cover of the cone that the rows generate.
    Cover,
    /// The irreducibles of the whole vectors at which all rows are at least 0, by the dual algorithm.
    Dual,
    /// What a table keeps of candidates of the width of the rows, or how often it compares.
    Table(Asking),
}

/// The engine with this name.
pub fn engine_of(word: &[u8]) -> Option<Engine> {
    if word == b"rays".as_slice() {
        return Some(Engine::Rays);
    }
    if word == b"walk".as_slice() {
        return Some(Engine::Walk);
    }
    if word == b"reduce".as_slice() {
        return Some(Engine::Reduce);
    }
    if word == b"cover".as_slice() {
        return Some(Engine::Cover);
    }
    if word == b"dual".as_slice() {
        return Some(Engine::Dual);
    }
    match asking_of(word) {
        Some(asking) => Some(Engine::Table(asking)),
        None => None,
    }
}

/// What came.
pub enum Outcome {
    Vectors(usize),
    Line,
    Refused,
}

/// What the engine answers of the rows.
pub fn measured(alloc: Global, engine: Engine, rows: &Rows<i64>, width: usize) -> Outcome
    requires { Each (HasWidth width) rows.now }
{
    match engine {
        Engine::Table(asking) => return tabled(alloc, asking, width),
        _ => {}
    }
    let simplex = match start(alloc, rows, width) {
        Ok(Pointed::Simplex(simplex)) => simplex,
        Ok(Pointed::Line(_)) => return Outcome::Line,
        Err(_) => return Outcome::Refused,
    };
    let count = match engine {
        Engine::Rays => rays(alloc, rows, &simplex, width),
        Engine::Walk => walked(alloc, rows, &simplex, width),
        Engine::Reduce => reduced(alloc, rows, &simplex, width),
        Engine::Cover => covered(alloc, rows, &simplex, width),
        Engine::Dual => irreducible(alloc, rows, &simplex, width),
        Engine::Table(_) => None,
    };
    match count {
        Some(count) => Outcome::Vectors(count),
        None => Outcome::Refused,
    }
}

// What the table keeps of its candidates, or how often it compares.
fn tabled(alloc: Global, asking: Asking, width: usize) -> Outcome {
    match asked(alloc, asking, width) {
        Ok(count) => Outcome::Vectors(count),
        Err(_) => Outcome::Refused,
    }
}

// The number of extreme rays of the cone of all rows.
fn rays(alloc: Global, rows: &Rows<i64>, simplex: &Simplex<i64>, width: usize) -> Option<usize>
    requires simplex { IsSimplexOf width rows.now simplex.now.places simplex.now.rays }
    requires widths { Each (HasWidth width) rows.now }
{
    let mut double = match Double::new(alloc, rows, simplex) {
        Ok(double) => double,
        Err(_) => return None,
    };
    for place in 0..rows.len() {
        match double.add(alloc, rows.at(place)) {
            Ok(()) => {}
            Err(_) => return None,
        }
    }
    Some(double.rays().len())
}

// The rows at the places of the simplex.
fn chosen(alloc: Global, rows: &Rows<i64>, places: &Places) -> Result<Rows<i64>, NoMemory>
    requires { Each (λ p. p < length rows.now) places.now }
    ensures { IfOk result (λ v. v ≡ vectors_at rows.now places.now) }
{
    let mut forms = Rows::new(alloc);
    for index in 0..places.len() {
        let copy = match rows.at(places.at(index)).try_copy() {
            Ok(copy) => copy,
            Err(refusal) => return Err(refusal),
        };
        match forms.push(copy) {
            Ok(()) => {}
            Err(refusal) => return Err(refusal),
        }
    }
    Ok(forms)
}

// The points of the parallelepiped of the rays of the simplex.
fn points(
    alloc: Global,
    rows: &Rows<i64>,
    simplex: &Simplex<i64>,
    width: usize,
) -> Option<Rows<i64>>
    requires simplex { IsSimplexOf width rows.now simplex.now.places simplex.now.rays }
    ensures { IfSome result (Each (HasWidth width)) }
{
    let forms = match chosen(alloc, rows, &simplex.places) {
        Ok(forms) => forms,
        Err(_) => return None,
    };
    match walk(alloc, &simplex.rays, &forms, u32::MAX) {
        Ok(points) => Some(points),
        Err(_) => None,
    }
}

// How many they are.
fn walked(alloc: Global, rows: &Rows<i64>, simplex: &Simplex<i64>, width: usize) -> Option<usize>
    requires { IsSimplexOf width rows.now simplex.now.places simplex.now.rays }
{
    match points(alloc, rows, simplex, width) {
        Some(points) => Some(points.len()),
        None => None,
    }
}

// How many of them no other one reduces.
fn reduced(alloc: Global, rows: &Rows<i64>, simplex: &Simplex<i64>, width: usize) -> Option<usize>
    requires simplex { IsSimplexOf width rows.now simplex.now.places simplex.now.rays }
    requires widths { Each (HasWidth width) rows.now }
{
    let points = match points(alloc, rows, simplex, width) {
        Some(points) => points,
        None => return None,
    };
    match irreducibles(alloc, &points, rows) {
        Ok(list) => Some(list.len()),
        Err(_) => None,
    }
}

// How many simplices cover the cone that the rows generate.
fn covered(alloc: Global, rows: &Rows<i64>, simplex: &Simplex<i64>, width: usize) -> Option<usize>
    requires simplex { IsSimplexOf width rows.now simplex.now.places simplex.now.rays }
    requires widths { Each (HasWidth width) rows.now }
{
    let _ = simplex;
    let mut watch: Box<dyn Watch> = match Box::new(alloc, QuietWatch::new()) {
        Ok(watch) => watch,
        Err(_) => return None,
    };
    match place(alloc, rows, width, 0, &mut watch) {
        Ok(cover) => Some(cover.simplices.len()),
        Err(_) => None,
    }
}

// How many irreducibles the whole vectors have at which all rows are at least 0.
fn irreducible(
    alloc: Global,
    rows: &Rows<i64>,
    simplex: &Simplex<i64>,
    width: usize,
) -> Option<usize>
    requires simplex { IsSimplexOf width rows.now simplex.now.places simplex.now.rays }
    requires widths { Each (HasWidth width) rows.now }
{
    let mut watch: Box<dyn Watch> = match Box::new(alloc, QuietWatch::new()) {
        Ok(watch) => watch,
        Err(_) => return None,
    };
    match dual(alloc, rows, simplex, u32::MAX, 0, &mut watch) {
        Ok(list) => Some(list.len()),
        Err(_) => None,
    }
}
