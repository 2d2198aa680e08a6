ghost use Rattle.std.specs.Prelude.{IfOk};
ghost use Rattle.std.specs.List.{AllByRecursion as Each};
ghost use Rattle.nz_spec.specs.Vectors.{HasWidth};
ghost use Rattle.nz_sweep.specs.Generating.{IsEchelon};

use nz_sweep::Basis;
use nz_vec::{Constraint, Constraints, Row, Rows, Scalar};
use std::alloc::Global;
use std::test::Fail;

// Rows, the rank of their lattice, its equations, and its congruences with their moduli.
#[derive(Clone, Copy)]
struct Case {
    width: usize,
    rows: &'static [&'static [i64]],
    rank: usize,
    equations: &'static [&'static [i64]],
    congruences: &'static [(&'static [i64], i64)],
}

const CASES: [Case; 10] = [
    Case {
        width: 2,
        rows: &[&[1, 0], &[1, 2]],
        rank: 2,
        equations: &[],
        congruences: &[(&[0, 1], 2)],
    },
    Case {
        width: 2,
        rows: &[&[1, 3], &[3, 1]],
        rank: 2,
        equations: &[],
        congruences: &[(&[3, -1], 8)],
    },
    Case {
        width: 2,
        rows: &[&[-3, 1], &[0, -2]],
        rank: 2,
        equations: &[],
        congruences: &[(&[-1, 0], 3), (&[-1, -3], 6)],
    },
    Case {
        width: 2,
        rows: &[&[2, 1], &[4, 2], &[6, 3]],
        rank: 1,
        equations: &[&[-1, 2]],
        congruences: &[(&[1, 0], 2)],
    },
    Case {
        width: 3,
        rows: &[&[0, 4, 2], &[0, 6, 3]],
        rank: 1,
        equations: &[&[1, 0, 0], &[0, -1, 2]],
        congruences: &[(&[0, 1, 0], 2)],
    },
    Case {
        width: 4,
        rows: &[&[2, 4, 0, 6], &[0, 3, 3, 0], &[2, 7, 3, 6], &[4, 5, -3, 12]],
        rank: 2,
        equations: &[&[2, -1, 1, 0], &[-3, 0, 0, 1]],
        congruences: &[(&[1, 0, 0, 0], 2), (&[-2, 1, 0, 0], 3)],
    },
    Case {
        width: 1,
        rows: &[&[6], &[10], &[15]],
        rank: 1,
        equations: &[],
        congruences: &[],
    },
    Case {
        width: 1,
        rows: &[],
        rank: 0,
        equations: &[&[1]],
        congruences: &[],
    },
    Case {
        width: 3,
        rows: &[&[0, 0, 0]],
        rank: 0,
        equations: &[&[1, 0, 0], &[0, 1, 0], &[0, 0, 1]],
        congruences: &[],
    },
    Case {
        width: 0,
        rows: &[],
        rank: 0,
        equations: &[],
        congruences: &[],
    },
];

fn row<T: Scalar>(alloc: Global, width: usize, entries: &[i64]) -> Result<Row<T>, Fail>
    ensures { IfOk result (HasWidth width) }
{
    let mut values = match Vec::with_capacity(alloc, width) {
        Ok(values) => values,
        Err(_) => return Err(Fail::from("no memory")),
    };
    for place in 0..width {
        match entries.get(place) {
            Some(entry) => values.push_reserved(T::of_i64(*entry)),
            None => return Err(Fail::from("another width")),
        }
    }
    Ok(Row::from_vec(values))
}

fn rows<T: Scalar>(alloc: Global, width: usize, list: &[&'static [i64]]) -> Result<Rows<T>, Fail>
    ensures { IfOk result (λ r. Each (HasWidth width) r) }
{
    let mut rows = Rows::new(alloc);
    for place in 0..list.len() {
        let row = match row(alloc, width, list[place]) {
            Ok(row) => row,
            Err(fail) => return Err(fail),
        };
        match rows.push(row) {
            Ok(()) => {}
            Err(_) => return Err(Fail::from("no memory")),
        }
    }
    Ok(rows)
}

fn reads<T: Scalar>(row: &Row<T>, entries: &[i64]) -> bool {
    if row.len() != entries.len() {
        return false;
    }
    for place in 0..entries.len() {
        if row.at(place).to_i128() != i128::from(entries[place]) {
            return false;
        }
    }
    true
}

fn is_equation<T: Scalar>(constraint: &Constraint<T>, entries: &[i64]) -> bool {
    match constraint {
        Constraint::Zero(form) => reads(form, entries),
        _ => false,
    }
}

fn is_congruence<T: Scalar>(constraint: &Constraint<T>, entries: &[i64], wanted: i64) -> bool {
    match constraint {
        Constraint::Multiple(form, modulus) => {
            if modulus.to_i128() != i128::from(wanted) {
                return false;
            }
            reads(form, entries)
        }
        _ => false,
    }
}

// Whether these are the equations, and then the congruences.
fn are_wanted<T: Scalar>(list: &Constraints<T>, case: &Case) -> bool {
    if list.len() != case.equations.len().saturating_add(case.congruences.len()) {
        return false;
    }
    for place in 0..list.len() {
        let constraint = list.at(place);
        let is_wanted = match case.equations.get(place) {
            Some(entries) => is_equation(constraint, entries),
            None => match case
                .congruences
                .get(place.saturating_sub(case.equations.len()))
            {
                Some((entries, modulus)) => is_congruence(constraint, entries, *modulus),
                None => false,
            },
        };
        if !is_wanted {
            return false;
        }
    }
    true
}

fn lattice<T: Scalar>(alloc: Global, case: &Case) -> Result<Basis<T>, Fail>
    ensures { IfOk result (λ b. IsEchelon b.vectors) }
{
    let rows = match rows::<T>(alloc, case.width, case.rows) {
        Ok(rows) => rows,
        Err(fail) => return Err(fail),
    };
    match Basis::of_generators(alloc, case.width, &rows) {
        Ok(basis) => Ok(basis),
        Err(_) => Err(Fail::from("refused")),
    }
}

fn is_generated<T: Scalar>(alloc: Global, case: &Case) -> Result<bool, Fail> {
    let basis = match lattice::<T>(alloc, case) {
        Ok(basis) => basis,
        Err(fail) => return Err(fail),
    };
    match basis.lattice_constraints(alloc) {
        Ok(constraints) => Ok(basis.rank() == case.rank && are_wanted(&constraints, case)),
        Err(_) => Ok(false),
    }
}

#[test]
fn generated_lattices(rt: HostRuntime) -> Result<(), Fail> {
    for case in CASES {
        assert!(rt; is_generated::<i64>(rt.alloc(), &case)?);
        assert!(rt; is_generated::<i128>(rt.alloc(), &case)?);
    }
    Ok(())
}
