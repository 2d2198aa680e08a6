//! Systems of files with every kind of item, and for each rule of meaning files that break it.
use nz_input::{Goal, Goals, Mode, read};
use nz_system::{GoalSet, System, SystemRefusal, system_of};
use nz_vec::{Constraint, Constraints, Row, Rows};
use std::alloc::Global;
use std::test::Fail;

fn put_row(text: &mut String, row: &Row<i128>) -> Result<(), Fail> {
    for place in 0..row.len() {
        write!(text, " {}", row.at(place))?;
    }
    Ok(())
}

fn put_rows(text: &mut String, rows: &Rows<i128>) -> Result<(), Fail> {
    for place in 0..rows.len() {
        if place > 0 {
            text.push_str(",")?;
        }
        put_row(text, rows.at(place))?;
    }
    Ok(())
}

fn put_some(text: &mut String, rows: &Option<Rows<i128>>) -> Result<(), Fail> {
    match rows {
        Some(rows) => put_rows(text, rows),
        None => Ok(text.push_str(" none")?),
    }
}

fn put_congruences(text: &mut String, list: &Constraints<i128>) -> Result<(), Fail> {
    for place in 0..list.len() {
        if place > 0 {
            text.push_str(",")?;
        }
        match list.at(place) {
            Constraint::Multiple(form, modulus) => {
                put_row(text, form)?;
                write!(text, " mod {modulus}")?;
            }
            _ => text.push_str(" no congruence")?,
        }
    }
    Ok(())
}

fn put_goals(text: &mut String, goals: GoalSet) -> Result<(), Fail> {
    for (on, name) in [
        (goals.hilbert, " hilbert"),
        (goals.rays, " rays"),
        (goals.hyperplanes, " hyperplanes"),
        (goals.degree_one, " degree_one"),
        (goals.modules, " modules"),
        (goals.cover, " cover"),
        (goals.lattice_points, " lattice_points"),
    ] {
        if on {
            text.push_str(name)?;
        }
    }
    Ok(())
}

fn put_rules(text: &mut String, system: &System) -> Result<(), Fail> {
    text.push_str(if system.level {
        " with level; eq"
    } else {
        "; eq"
    })?;
    put_rows(text, &system.eq)?;
    text.push_str("; cg")?;
    put_congruences(text, &system.cg)?;
    text.push_str("; ge")?;
    put_rows(text, &system.ge)
}

fn put_grading(text: &mut String, grading: &Option<Row<i128>>) -> Result<(), Fail> {
    match grading {
        Some(grading) => put_row(text, grading),
        None => Ok(text.push_str(" none")?),
    }
}

fn put_given(text: &mut String, system: &System) -> Result<(), Fail> {
    text.push_str("; gens")?;
    put_some(text, &system.gens)?;
    text.push_str("; lat")?;
    put_some(text, &system.lat)?;
    text.push_str("; grading")?;
    put_grading(text, &system.grading)
}

fn put_asked(text: &mut String, system: &System) -> Result<(), Fail> {
    text.push_str("; asked")?;
    put_some(text, &system.asked)?;
    text.push_str(";")?;
    put_goals(text, system.goals)?;
    text.push_str(match system.mode {
        Mode::Primal => " primal",
        Mode::Dual => " dual",
    })?;
    Ok(())
}

fn shown(alloc: Global, system: &System) -> Result<String, Fail> {
    let mut text = format!(in alloc; "width {}", system.width)?;
    put_rules(&mut text, system)?;
    put_given(&mut text, system)?;
    put_asked(&mut text, system)?;
    Ok(text)
}

fn goals_of(alloc: Global, words: &[Goal]) -> Result<Goals, Fail> {
    let mut goals = Goals::new(alloc);
    for word in words {
        goals.push(*word)?;
    }
    Ok(goals)
}

// The system of a file, or why it has none; so many zeros stand behind the text.
fn outcome(alloc: Global, text: &str, zeros: u32, words: &[Goal]) -> Result<String, Fail> {
    let mut input = String::from_str(alloc, text)?;
    for _ in 0..zeros {
        input.push_str(" 0")?;
    }
    let file = match read(alloc, input.as_str().as_bytes()) {
        Ok(file) => file,
        Err(_) => return Err(Fail::from("no file")),
    };
    match system_of(alloc, &file, &goals_of(alloc, words)?) {
        Ok(system) => shown(alloc, &system),
        Err(SystemRefusal::Meaning { item, row, fault }) => {
            Ok(format!(in alloc; "item {item} row {row}: {fault:?}")?)
        }
        Err(SystemRefusal::NoMemory) => Err(Fail::from("no memory")),
    }
}

#[test]
fn meanings(rt: HostRuntime) -> Result<(), Fail> {
    for (text, zeros, words, expected) in [
        (
            "amb_space 2 cone 2 1 3 2 1 HilbertBasis ExtremeRays SupportHyperplanes Triangulation",
            0,
            [].as_slice(),
            "width 2; eq; cg; ge; gens 1 3, 2 1; lat none; grading none; asked none; hilbert rays hyperplanes cover primal",
        ),
        (
            "amb_space 2 cone 1 1 3 vertices 1 1 1 2 ask 1 0 5",
            0,
            [].as_slice(),
            "width 3 with level; eq; cg; ge 0 0 1; gens 1 3 0, 1 1 2; lat none; grading none; asked 0 5; hilbert primal",
        ),
        (
            "amb_space 2 cone_and_lattice 2 1 0 1 2 ask 2 1 1 0 -1",
            0,
            [Goal::DualMode].as_slice(),
            "width 2; eq; cg; ge; gens 1 0, 1 2; lat 1 0, 1 2; grading none; asked 1 1, 0 -1; hilbert dual",
        ),
        (
            "amb_space 1 vertices 0",
            0,
            [].as_slice(),
            "width 2 with level; eq; cg; ge 0 1; gens; lat none; grading none; asked none; hilbert primal",
        ),
        (
            "amb_space 1 cone 1 2 strict_inequalities 1 3",
            0,
            [].as_slice(),
            "width 2 with level; eq; cg; ge 3 -1, 0 1; gens 2 0, 0 1; lat none; grading none; asked none; hilbert primal",
        ),
        (
            "amb_space 2 inequalities 2 1 0 -1 2 PrimalMode",
            0,
            [Goal::DualMode].as_slice(),
            "width 2; eq; cg; ge 1 0, -1 2; gens none; lat none; grading none; asked none; hilbert dual",
        ),
        (
            "amb_space 2 equations 1 1 -1 congruences 1 1 2 3 DualMode PrimalMode",
            0,
            [].as_slice(),
            "width 2; eq 1 -1; cg 1 2 mod 3; ge 1 0, 0 1; gens none; lat none; grading none; asked none; hilbert primal",
        ),
        (
            "amb_space 3 signs 1 0 -1 DualMode",
            0,
            [Goal::ExtremeRays].as_slice(),
            "width 3; eq; cg; ge 1 0 0, 0 0 -1; gens none; lat none; grading none; asked none; rays dual",
        ),
        (
            "amb_space 1 strict_signs 1 LatticePoints",
            0,
            [].as_slice(),
            "width 2 with level; eq; cg; ge 1 -1, 0 1; gens none; lat none; grading none; asked none; lattice_points primal",
        ),
        (
            "amb_space 3 strict_signs -1 0 1 signs 1 1 0",
            0,
            [Goal::ModuleGenerators].as_slice(),
            "width 4 with level; eq; cg; ge -1 0 0 -1, 0 0 1 -1, 1 0 0 0, 0 1 0 0, 0 0 0 1; gens none; lat none; grading none; asked none; modules primal",
        ),
        (
            "amb_space 2 inhom_inequalities 1 1 1 -3 inequalities 1 0 1",
            0,
            [].as_slice(),
            "width 3 with level; eq; cg; ge 1 1 -3, 0 1 0, 0 0 1; gens none; lat none; grading none; asked none; hilbert primal",
        ),
        (
            "amb_space 2 inhom_equations 1 1 1 -4 congruences 1 1 0 2",
            0,
            [].as_slice(),
            "width 3 with level; eq 1 1 -4; cg 1 0 0 mod 2; ge 1 0 0, 0 1 0, 0 0 1; gens none; lat none; grading none; asked none; hilbert primal",
        ),
        (
            "amb_space 1 inhom_congruences 1 1 1 3 grading 1",
            0,
            [Goal::Deg1Elements].as_slice(),
            "width 2 with level; eq; cg 1 1 mod 3; ge 1 0, 0 1; gens none; lat none; grading 1 0; asked none; degree_one primal",
        ),
        (
            "amb_space 2 inequalities 0 grading 1 2 Triangulation",
            0,
            [Goal::DualMode].as_slice(),
            "width 2; eq; cg; ge; gens none; lat none; grading 1 2; asked none; cover primal",
        ),
        (
            "amb_space 1 strict_inequalities 1 1000000000000000000",
            0,
            [Goal::PrimalMode].as_slice(),
            "width 2 with level; eq; cg; ge 1000000000000000000 -1, 0 1; gens none; lat none; grading none; asked none; hilbert primal",
        ),
        (
            "amb_space 3",
            0,
            [Goal::SupportHyperplanes, Goal::DualMode].as_slice(),
            "width 3; eq; cg; ge 1 0 0, 0 1 0, 0 0 1; gens none; lat none; grading none; asked none; hyperplanes dual",
        ),
        (
            "amb_space 2 congruences 1 1 1 0",
            0,
            [].as_slice(),
            "item 1 row 1: Modulus",
        ),
        (
            "amb_space 2 signs 1 2",
            0,
            [].as_slice(),
            "item 1 row 1: Sign",
        ),
        (
            "amb_space 1 vertices 2 1 1 1 0",
            0,
            [].as_slice(),
            "item 1 row 2: Denominator",
        ),
        (
            "amb_space 1 cone 1 1 cone_and_lattice 1 1",
            0,
            [].as_slice(),
            "item 2 row 0: Mixed",
        ),
        (
            "amb_space 1 grading 1 grading 1",
            0,
            [].as_slice(),
            "item 2 row 0: Repeated",
        ),
        (
            "amb_space 1 Deg1Elements",
            0,
            [].as_slice(),
            "item 0 row 0: NoGrading",
        ),
        (
            "amb_space 1 ModuleGenerators",
            0,
            [].as_slice(),
            "item 0 row 0: NoLevel",
        ),
        (
            "amb_space 1 LatticePoints",
            0,
            [].as_slice(),
            "item 0 row 0: NoLevel",
        ),
        (
            "amb_space 1 LatticePoints Deg1Elements",
            0,
            [].as_slice(),
            "item 0 row 0: NoGrading",
        ),
        (
            "amb_space 1 signs 1 equations 1024",
            1024,
            [].as_slice(),
            "item 2 row 1024: RowLimit",
        ),
        (
            "amb_space 1 inhom_congruences 2 1 1 1 1 1 -3",
            0,
            [].as_slice(),
            "item 1 row 2: Modulus",
        ),
        (
            "amb_space 1 strict_signs -2",
            0,
            [].as_slice(),
            "item 1 row 1: Sign",
        ),
        (
            "amb_space 1 strict_signs 1 strict_signs 1",
            0,
            [].as_slice(),
            "item 2 row 0: Repeated",
        ),
        (
            "amb_space 1 signs 1 strict_signs 1 signs 7",
            0,
            [].as_slice(),
            "item 3 row 0: Repeated",
        ),
        (
            "amb_space 1 cone_and_lattice 0 vertices 0",
            0,
            [].as_slice(),
            "item 1 row 0: Mixed",
        ),
        (
            "amb_space 1 cone 1 1 monomial_ideal 1 2",
            0,
            [].as_slice(),
            "item 2 row 0: Mixed",
        ),
        (
            "amb_space 1 congruences 2 1 1 1 0 signs 2",
            0,
            [Goal::Deg1Elements].as_slice(),
            "item 1 row 2: Modulus",
        ),
        (
            "amb_space 1 ask 1 0",
            0,
            [Goal::ModuleGenerators, Goal::Deg1Elements].as_slice(),
            "item 0 row 0: NoGrading",
        ),
    ] {
        let got = outcome(rt.alloc(), text, zeros, words)?;
        assert_eq!(rt; got.as_str(), expected, "of {text}");
    }
    Ok(())
}
