ghost use Rattle.std.specs.Prelude.{◌≡◌, IfOk, None, length};
ghost use Rattle.std.specs.List.{AllByRecursion as Each};
ghost use Rattle.nz_spec.specs.Vectors.{HasWidth};
ghost use Rattle.nz_sweep.specs.Generating.{IsEchelon};

use nz_facets::constraints_of;
use nz_sweep::Basis;
use nz_vec::{Constraint, Constraints, Num, Row, Rows, Scalar};
use std::alloc::Global;
use std::process::Abort;
use std::test::Fail;

// Generators, the rows of a lattice where there is one, and vectors that are members and that are
// none.
#[derive(Clone, Copy)]
struct Case {
    width: usize,
    gens: &'static [&'static [i64]],
    is_lattice: bool,
    lattice: &'static [&'static [i64]],
    inside: &'static [&'static [i64]],
    outside: &'static [&'static [i64]],
}

const CASES: [Case; 6] = [
    Case {
        width: 2,
        gens: &[&[1, 3], &[2, 1]],
        is_lattice: false,
        lattice: &[],
        inside: &[&[0, 0], &[1, 1], &[1, 2], &[2, 2]],
        outside: &[&[1, 0], &[1, 4], &[0, 1], &[-1, -1]],
    },
    Case {
        width: 2,
        gens: &[&[1, 0], &[1, 2]],
        is_lattice: true,
        lattice: &[&[1, 0], &[1, 2]],
        inside: &[&[1, 0], &[1, 2], &[2, 2]],
        outside: &[&[1, 1], &[0, 1], &[0, 2], &[-1, 0]],
    },
    Case {
        width: 2,
        gens: &[&[1, 1], &[1, -1]],
        is_lattice: true,
        lattice: &[&[2, 0]],
        inside: &[&[2, 0], &[4, 0]],
        outside: &[&[1, 0], &[2, 2], &[-2, 0]],
    },
    Case {
        width: 2,
        gens: &[&[1_000_000_007, 1], &[1_000_000_006, 1]],
        is_lattice: false,
        lattice: &[],
        inside: &[&[1_000_000_006, 1], &[2_000_000_013, 2]],
        outside: &[&[1_000_000_005, 1], &[1, 0]],
    },
    Case {
        width: 2,
        gens: &[],
        is_lattice: false,
        lattice: &[],
        inside: &[&[0, 0]],
        outside: &[&[1, 0], &[0, -1]],
    },
    Case {
        width: 2,
        gens: &[&[1, 2]],
        is_lattice: false,
        lattice: &[],
        inside: &[&[1, 2], &[3, 6]],
        outside: &[&[2, 2], &[-1, -2]],
    },
];

// A support form of these generators has the entry 10^36.
const LARGE: Case = Case {
    width: 3,
    gens: &[
        &[1_000_000_000_000_000_000, 1, 0],
        &[0, 1_000_000_000_000_000_000, 1],
        &[1, 0, 1_000_000_000_000_000_000],
    ],
    is_lattice: false,
    lattice: &[],
    inside: &[],
    outside: &[],
};

fn row<T: Scalar>(alloc: Global, width: usize, entries: &[i64]) -> Result<Row<T>, Fail>
    ensures { IfOk result (HasWidth width) }
{
    let mut values = match Vec::with_capacity(alloc, width) {
        Ok(values) => values,
        Err(_) => return Err(Fail::from("no memory")),
    };
    for place in 0..width {
        match entries.get(place) {
            Some(entry) => values.push_reserved(T::of_i64(*entry)),
            None => return Err(Fail::from("another width")),
        }
    }
    Ok(Row::from_vec(values))
}

fn rows<T: Scalar>(alloc: Global, width: usize, list: &[&'static [i64]]) -> Result<Rows<T>, Fail>
    ensures { IfOk result (λ r. Each (HasWidth width) r) }
{
    let mut rows = Rows::new(alloc);
    for place in 0..list.len() {
        let row = match row(alloc, width, list[place]) {
            Ok(row) => row,
            Err(fail) => return Err(fail),
        };
        match rows.push(row) {
            Ok(()) => {}
            Err(_) => return Err(Fail::from("no memory")),
        }
    }
    Ok(rows)
}

fn meets<T: Scalar>(constraint: &Constraint<T>, x: &Row<T>) -> Result<bool, Fail> {
    match constraint {
        Constraint::Zero(form) => Ok(value(form, x)? == 0),
        Constraint::Multiple(form, modulus) => {
            Ok(value(form, x)?.checked_rem(modulus.to_i128()) == Some(0))
        }
        Constraint::NotNegative(form) => Ok(value(form, x)? >= 0),
    }
}

fn value<T: Scalar>(form: &Row<T>, x: &Row<T>) -> Result<i128, Fail> {
    if form.len() != x.len() {
        return Err(Fail::from("another width"));
    }
    match form.dot(x) {
        Some(value) => Ok(value.to_i128()),
        None => Err(Fail::from("too large")),
    }
}

fn meets_all<T: Scalar>(list: &Constraints<T>, x: &Row<T>) -> Result<bool, Fail> {
    for place in 0..list.len() {
        let is_met = meets(list.at(place), x)?;
        if !is_met {
            return Ok(false);
        }
    }
    Ok(true)
}

// Whether all the vectors are members, or all are none.
fn are_members<T: Scalar>(
    alloc: Global,
    width: usize,
    list: &Constraints<T>,
    vectors: &[&'static [i64]],
    wanted: bool,
) -> Result<bool, Fail> {
    for place in 0..vectors.len() {
        let x = row::<T>(alloc, width, vectors[place])?;
        let is_member = meets_all(list, &x)?;
        if is_member != wanted {
            return Ok(false);
        }
    }
    Ok(true)
}

fn lattice<T: Scalar>(alloc: Global, case: &Case) -> Result<Basis<T>, Fail>
    ensures { IfOk result (λ b. (b.width ≡ case.now.width) × IsEchelon b.vectors) }
{
    let rows = match rows::<T>(alloc, case.width, case.lattice) {
        Ok(rows) => rows,
        Err(fail) => return Err(fail),
    };
    match Basis::of_generators(alloc, case.width, &rows) {
        Ok(basis) => Ok(basis),
        Err(_) => Err(Fail::from("refused")),
    }
}

fn constraints<T: Scalar>(alloc: Global, case: &Case) -> Result<Result<Constraints<T>, Num>, Fail> {
    let gens = match rows::<T>(alloc, case.width, case.gens) {
        Ok(gens) => gens,
        Err(fail) => return Err(fail),
    };
    let basis = match lattice::<T>(alloc, case) {
        Ok(basis) => basis,
        Err(fail) => return Err(fail),
    };
    if case.is_lattice {
        return Ok(constraints_of(alloc, case.width, &gens, Some(&basis)));
    }
    Ok(constraints_of(alloc, case.width, &gens, no_lattice(&basis)))
}

fn no_lattice<T: Scalar>(_basis: &Basis<T>) -> Option<&Basis<T>>
    ensures { result ≡ None }
{
    None
}

fn members<T: Scalar>(rt: &impl Abort, alloc: Global) -> Result<(), Fail> {
    for case in CASES {
        let list = match constraints::<T>(alloc, &case)? {
            Ok(list) => list,
            Err(_) => return Err(Fail::from("refused")),
        };
        let are_inside = are_members(alloc, case.width, &list, case.inside, true)?;
        assert!(rt; are_inside);
        let are_outside = are_members(alloc, case.width, &list, case.outside, false)?;
        assert!(rt; are_outside);
    }
    Ok(())
}

fn is_range<T: Scalar>(alloc: Global) -> Result<bool, Fail> {
    match constraints::<T>(alloc, &LARGE)? {
        Ok(_) => Ok(false),
        Err(refusal) => Ok(refusal == Num::Range),
    }
}

#[test]
fn members_of_cones_and_lattices(rt: HostRuntime) -> Result<(), Fail> {
    members::<i64>(&rt, rt.alloc())?;
    members::<i128>(&rt, rt.alloc())?;
    let is_refused = is_range::<i64>(rt.alloc())?;
    assert!(&rt; is_refused);
    Ok(())
}
