// The outcome of a system: of its elements what the goals ask.
ghost use Rattle.std.specs.Prelude.{◌≡◌, ◌≢◌, ◌≤◌, IsTrue, IfOk, IfErr, MatchResult, option_map};
ghost use Rattle.nz_pointed.specs.Pointed.{IsTooLarge};
ghost use Rattle.std.specs.List.{AllByRecursion as Each};
ghost use Rattle.nz_spec.specs.Vectors.{HasWidth};
ghost use Rattle.nz_spec.specs.Forms.{IsDescription};
ghost use Rattle.nz_degree.specs.Levels.{HasEntry};
ghost use Rattle.nz_system.specs.Meaning.{there};
ghost use Rattle.nz_solve.specs.Replies.{AreWhere};
ghost use Rattle.nz_solve.specs.Solutions.{IsSolution, wants_basis, wants_modules};
ghost use Rattle.nz_solve.specs.Parts.{AreElements, AreDivided, AreParted, IsShownCause, IsOutcomeRefusal, wants_description, amb_at, kept_where};

use crate::divided::divided_of;
use crate::elements::Elements;
use crate::lists::{ElementLists, element_lists};
use crate::refusal::{SolveRefusal, unreckoned};
use crate::replies::answer_asked;
use crate::widening::{widen_given, widen_number, widen_rows};
use nz_blocks::Outcome;
use nz_degree::split_extreme;
use nz_facets::describe;
use nz_system::SystemOver;
use nz_vec::{NoMemory, Num, PlaceLists, Rows, Scalar};
use std::alloc::Global;

/// The outcome of the system with these elements, at the greatest width, or the first of its Hilbert basis
/// where its degree is 0 or less.
pub(crate) fn outcome<T: Scalar>(
    alloc: Global,
    system: &SystemOver<T>,
    elements: Elements<T>,
) -> Result<Outcome, SolveRefusal>
    requires { AreElements system.now elements.list elements.extreme elements.simplices }
    ensures { MatchResult result (IsSolution system.now) (IsOutcomeRefusal T.HALF system.now.system) }
{
    system.kept();
    let Elements {
        list,
        extreme,
        simplices,
        told: _,
    } = elements;
    let lists = match element_lists(alloc, system, list) {
        Ok(lists) => lists,
        Err(refusal) => return Err(refusal),
    };
    let shown = match wide_shown(alloc, system, &extreme, &lists.hilbert) {
        Ok(shown) => shown,
        Err(refusal) => return Err(unreckoned(refusal)),
    };
    let (lists, extreme) = match widen_lists(alloc, &lists, &extreme) {
        Ok(wide) => wide,
        Err(_) => return Err(SolveRefusal::NoMemory),
    };
    let asked = match answer_asked(alloc, system, &lists) {
        Ok(asked) => asked,
        Err(refusal) => return Err(unreckoned(refusal)),
    };
    Ok(Outcome {
        amb: amb_of(system.width, system.level),
        level: system.level,
        denominator: shown.denominator,
        modules: kept_where(wants_modules(system), lists.modules),
        hilbert: rows_where(wants_basis(system), lists.hilbert),
        degree_one: shown.degree_one,
        vertices: shown.vertices,
        rays: shown.rays,
        support: shown.support,
        equations: shown.equations,
        generators: rows_where(system.goals.cover, extreme),
        simplices: simplices_where(system.goals.cover, simplices),
        asked,
    })
}

// The lists and the extreme generators at the greatest width.
fn widen_lists<T: Scalar>(
    alloc: Global,
    lists: &ElementLists<T>,
    extreme: &Rows<T>,
) -> Result<(ElementLists<i128>, Rows<i128>), NoMemory>
    ensures hilbert { IfOk result (λ w. w.0.hilbert ≡ lists.now.hilbert) }
    ensures modules { IfOk result (λ w. w.0.modules ≡ lists.now.modules) }
    ensures extreme { IfOk result (λ w. w.1 ≡ extreme.now) }
{
    let hilbert = widen_rows(alloc, &lists.hilbert)?;
    let modules = widen_given(alloc, &lists.modules)?;
    let extreme = widen_rows(alloc, extreme)?;
    Ok((ElementLists { hilbert, modules }, extreme))
}

// The number of entries of a vector of the file: one less than the width where there is a level.
fn amb_of(width: u32, level: bool) -> u32
    requires { IsTrue level → 1 ≤ width }
    ensures { result ≡ amb_at level width }
{
    if level { width - 1 } else { width }
}

// Whether the Hilbert basis is wanted: by its goal, or for the asked vectors.
fn wants_basis<T: Scalar>(system: &SystemOver<T>) -> bool
    ensures { result ≡ wants_basis system.now }
{
    if system.goals.hilbert {
        return true;
    }
    match &system.asked {
        Some(_) => true,
        None => false,
    }
}

// Whether the module generators are wanted: with a level, by their goal or with the Hilbert basis.
fn wants_modules<T: Scalar>(system: &SystemOver<T>) -> bool
    ensures { result ≡ wants_modules system.now }
{
    if !system.level {
        return false;
    }
    if system.goals.modules {
        return true;
    }
    wants_basis(system)
}

// What is shown beside the lists of the irreducible elements, at the greatest width.
fn wide_shown<T: Scalar>(
    alloc: Global,
    system: &SystemOver<T>,
    extreme: &Rows<T>,
    hilbert: &Rows<T>,
) -> Result<Shown<i128>, Num>
    requires extreme { IsTrue (wants_description system.now) → Each (HasWidth system.now.system.width) extreme.now }
    requires hilbert { Each (HasWidth system.now.system.width) hilbert.now }
    ensures divided { IfOk result (λ s. AreDivided system.now.goals.degree_one system.now.system.grading hilbert.now s.denominator s.degree_one) }
    ensures parted { IfOk result (λ s. AreParted system.now.goals.rays system.now.system.level extreme.now s.vertices s.rays) }
    ensures described { IfOk result (λ s. AreWhere system.now.goals.hyperplanes (IsDescription system.now.system.width extreme.now) s.support s.equations) }
    ensures cause { IfErr result (λ e. e ≡ Num.Range → IsShownCause T.HALF T.fits system.now extreme.now hilbert.now) }
{
    let shown = match shown_of(alloc, system, extreme, hilbert) {
        Ok(shown) => shown,
        Err(refusal) => return Err(refusal),
    };
    match widen_shown(alloc, &shown) {
        Ok(shown) => Ok(shown),
        Err(refusal) => Err(Num::from(refusal)),
    }
}

fn widen_shown<T: Scalar>(alloc: Global, shown: &Shown<T>) -> Result<Shown<i128>, NoMemory>
    ensures divided { IfOk result (λ s. (s.denominator ≡ option_map T.integer shown.now.denominator) × (s.degree_one ≡ shown.now.degree_one)) }
    ensures parted { IfOk result (λ s. (s.vertices ≡ shown.now.vertices) × (s.rays ≡ shown.now.rays)) }
    ensures described { IfOk result (λ s. (s.support ≡ shown.now.support) × (s.equations ≡ shown.now.equations)) }
{
    Ok(Shown {
        denominator: widen_number(shown.denominator),
        degree_one: widen_given(alloc, &shown.degree_one)?,
        vertices: widen_given(alloc, &shown.vertices)?,
        rays: widen_given(alloc, &shown.rays)?,
        support: widen_given(alloc, &shown.support)?,
        equations: widen_given(alloc, &shown.equations)?,
    })
}

// What is shown beside the lists of the irreducible elements.
#[derive(Drop)]
struct Shown<T: Scalar> {
    denominator: Option<T>,
    degree_one: Option<Rows<T>>,
    vertices: Option<Rows<T>>,
    rays: Option<Rows<T>>,
    support: Option<Rows<T>>,
    equations: Option<Rows<T>>,
}

fn shown_of<T: Scalar>(
    alloc: Global,
    system: &SystemOver<T>,
    extreme: &Rows<T>,
    hilbert: &Rows<T>,
) -> Result<Shown<T>, Num>
    requires extreme { IsTrue (wants_description system.now) → Each (HasWidth system.now.system.width) extreme.now }
    requires hilbert { Each (HasWidth system.now.system.width) hilbert.now }
    ensures divided { IfOk result (λ s. AreDivided system.now.goals.degree_one system.now.system.grading hilbert.now (option_map T.integer s.denominator) s.degree_one) }
    ensures parted { IfOk result (λ s. AreParted system.now.goals.rays system.now.system.level extreme.now s.vertices s.rays) }
    ensures described { IfOk result (λ s. AreWhere system.now.goals.hyperplanes (IsDescription system.now.system.width extreme.now) s.support s.equations) }
    ensures cause { IfErr result (λ e. e ≡ Num.Range → IsShownCause T.HALF T.fits system.now extreme.now hilbert.now) }
{
    system.kept();
    let goals = system.goals;
    let divided = match divided_of(alloc, goals.degree_one, &system.grading, hilbert) {
        Ok(divided) => divided,
        Err(refusal) => return Err(refusal),
    };
    let parted = match part_extreme(alloc, goals.rays, system.level, extreme) {
        Ok(parted) => parted,
        Err(refusal) => return Err(Num::from(refusal)),
    };
    let width = system.width as usize;
    match description_of(alloc, goals.hyperplanes, width, extreme) {
        Ok(described) => Ok(Shown {
            denominator: divided.denominator,
            degree_one: divided.degree_one,
            vertices: parted.vertices,
            rays: parted.rays,
            support: described.support,
            equations: described.equations,
        }),
        Err(refusal) => Err(refusal),
    }
}

// The vertices and the extreme rays, where they are wanted.
#[derive(Drop)]
struct Parted<T: Scalar> {
    vertices: Option<Rows<T>>,
    rays: Option<Rows<T>>,
}

fn part_extreme<T: Scalar>(
    alloc: Global,
    wanted: bool,
    level: bool,
    extreme: &Rows<T>,
) -> Result<Parted<T>, NoMemory>
    requires { IsTrue wanted → IsTrue level → Each HasEntry extreme.now }
    ensures { IfOk result (λ p. AreParted wanted level extreme.now p.vertices p.rays) }
{
    if !wanted {
        return Ok(Parted {
            vertices: None,
            rays: None,
        });
    }
    if !level {
        let rays = Some(extreme.try_copy()?);
        return Ok(Parted {
            vertices: None,
            rays,
        });
    }
    let levels = split_extreme(alloc, extreme)?;
    Ok(Parted {
        vertices: Some(levels.vertices),
        rays: Some(levels.rays),
    })
}

// The support forms and the equations, where they are wanted.
#[derive(Drop)]
struct Described<T: Scalar> {
    support: Option<Rows<T>>,
    equations: Option<Rows<T>>,
}

fn description_of<T: Scalar>(
    alloc: Global,
    wanted: bool,
    width: usize,
    gens: &Rows<T>,
) -> Result<Described<T>, Num>
    requires { IsTrue wanted → Each (HasWidth width) gens.now }
    ensures described { IfOk result (λ d. AreWhere wanted (IsDescription width gens.now) d.support d.equations) }
    ensures cause { IfErr result (λ e. e ≡ Num.Range → IsTrue wanted × IsTooLarge T.HALF width gens.now) }
{
    if !wanted {
        return Ok(Described {
            support: None,
            equations: None,
        });
    }
    match describe(alloc, width, gens) {
        Ok(description) => Ok(Described {
            support: Some(description.support),
            equations: Some(description.equations),
        }),
        Err(refusal) => Err(refusal),
    }
}

fn rows_where<T: Scalar>(wanted: bool, rows: Rows<T>) -> Option<Rows<T>>
    ensures { result ≡ there wanted rows }
{
    if wanted { Some(rows) } else { None }
}

fn kept_where<T: Scalar>(wanted: bool, rows: Option<Rows<T>>) -> Option<Rows<T>>
    ensures { result ≡ kept_where wanted rows }
{
    if wanted { rows } else { None }
}

fn simplices_where(wanted: bool, simplices: PlaceLists) -> Option<PlaceLists>
    ensures { result ≡ there wanted simplices }
{
    if wanted { Some(simplices) } else { None }
}
