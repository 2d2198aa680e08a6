ghost use Rattle.std.specs.Prelude.{◌≡◌, IfOk, length};

use nz_sweep::Basis;
use nz_vec::{Num, Row, Scalar};
use std::alloc::Global;
use std::test::Fail;

// A form, and the modulus of which it is to be a multiple; it is to be 0 where that is 0.
type Cut = (&'static [i64], i64);

// Cuts of the whole lattice, the base that is left, a vector inside and one outside.
#[derive(Clone, Copy)]
struct Case {
    width: usize,
    cuts: &'static [Cut],
    base: &'static [&'static [i64]],
    inside: &'static [i64],
    outside: &'static [i64],
}

const CASES: [Case; 6] = [
    Case {
        width: 2,
        cuts: &[(&[1, 1], 2)],
        base: &[&[2, 0], &[-1, 1]],
        inside: &[3, 1],
        outside: &[1, 0],
    },
    Case {
        width: 2,
        cuts: &[(&[1, 2], 3)],
        base: &[&[3, 0], &[-2, 1]],
        inside: &[1, 1],
        outside: &[2, 1],
    },
    Case {
        width: 3,
        cuts: &[(&[6, 10, 15], 0)],
        base: &[&[5, 0, -2], &[-5, -3, 4]],
        inside: &[0, 3, -2],
        outside: &[1, 0, 0],
    },
    Case {
        width: 3,
        cuts: &[(&[2, 3, 4], 0), (&[1, -1, 2], 6), (&[0, 4, -2], 9)],
        base: &[&[138, -84, -6], &[-180, 108, 9]],
        inside: &[-42, 24, 3],
        outside: &[2, 0, -1],
    },
    Case {
        width: 3,
        cuts: &[(&[0, 0, 0], 0), (&[2, 4, 6], 2)],
        base: &[&[1, 0, 0], &[0, 1, 0], &[0, 0, 1]],
        inside: &[5, -7, 9],
        outside: &[],
    },
    // magic squares of order 3 with even corners
    Case {
        width: 9,
        cuts: &[
            (&[1, 1, 1, -1, -1, -1, 0, 0, 0], 0),
            (&[1, 1, 1, 0, 0, 0, -1, -1, -1], 0),
            (&[0, 1, 1, -1, 0, 0, -1, 0, 0], 0),
            (&[1, 0, 1, 0, -1, 0, 0, -1, 0], 0),
            (&[1, 1, 0, 0, 0, -1, 0, 0, -1], 0),
            (&[0, 1, 1, 0, -1, 0, 0, 0, -1], 0),
            (&[1, 1, 0, 0, -1, 0, -1, 0, 0], 0),
            (&[1, 0, 0, 0, 0, 0, 0, 0, 0], 2),
            (&[0, 0, 1, 0, 0, 0, 0, 0, 0], 2),
            (&[0, 0, 0, 0, 0, 0, 1, 0, 0], 2),
            (&[0, 0, 0, 0, 0, 0, 0, 0, 1], 2),
        ],
        base: &[
            &[4, 4, -2, -4, 2, 8, 6, 0, 0],
            &[-2, -3, 2, 3, -1, -5, -4, 1, 0],
            &[-2, 0, 2, 4, 0, -4, -2, 0, 2],
        ],
        inside: &[2, 3, 4, 5, 3, 1, 2, 3, 4],
        outside: &[1, 1, 1, 1, 1, 1, 1, 1, 1],
    },
];

fn row<T: Scalar>(alloc: Global, entries: &[i64]) -> Result<Row<T>, Fail>
    ensures { IfOk result (λ r. length r ≡ length entries.now) }
{
    let mut values = match Vec::with_capacity(alloc, entries.len()) {
        Ok(values) => values,
        Err(_) => return Err(Fail::from("no memory")),
    };
    for place in 0..entries.len() {
        values.push_reserved(T::of_i64(entries[place]));
    }
    Ok(Row::from_vec(values))
}

// The coordinates of one vector of the base.
fn unit<T: Scalar>(alloc: Global, rank: usize, place: usize) -> Result<Row<T>, Fail>
    ensures { IfOk result (λ r. length r ≡ rank) }
{
    let mut values = match Vec::with_capacity(alloc, rank) {
        Ok(values) => values,
        Err(_) => return Err(Fail::from("no memory")),
    };
    for index in 0..rank {
        values.push_reserved(T::of_i64(i64::from(index == place)));
    }
    Ok(Row::from_vec(values))
}

fn reads<T: Scalar>(row: &Row<T>, entries: &[i64]) -> bool {
    if row.len() != entries.len() {
        return false;
    }
    for place in 0..entries.len() {
        if row.at(place).to_i128() != i128::from(entries[place]) {
            return false;
        }
    }
    true
}

fn cut_by<T: Scalar>(
    alloc: Global,
    width: usize,
    basis: &mut Basis<T>,
    cut: Cut,
) -> Result<(), Fail>
    requires { basis.old.width ≡ width }
    ensures { basis.new.width ≡ width }
{
    let (entries, modulus) = cut;
    if entries.len() != width {
        return Err(Fail::from("another width"));
    }
    let form = match row::<T>(alloc, entries) {
        Ok(form) => form,
        Err(fail) => return Err(fail),
    };
    if modulus < 1 {
        return taken(basis.cut_equation(alloc, &form));
    }
    taken(basis.cut_congruence(alloc, &form, T::of_i64(modulus)))
}

fn taken(cut: Result<(), Num>) -> Result<(), Fail> {
    match cut {
        Ok(()) => Ok(()),
        Err(_) => Err(Fail::from("refused")),
    }
}

fn basis_of<T: Scalar>(alloc: Global, width: usize, cuts: &[Cut]) -> Result<Basis<T>, Fail>
    ensures { IfOk result (λ b. b.width ≡ width) }
{
    let mut basis = match Basis::<T>::whole(alloc, width) {
        Ok(basis) => basis,
        Err(_) => return Err(Fail::from("no memory")),
    };
    for place in 0..cuts.len() {
        match cut_by(alloc, width, &mut basis, cuts[place]) {
            Ok(()) => {}
            Err(fail) => return Err(fail),
        }
    }
    Ok(basis)
}

fn has_base<T: Scalar>(
    alloc: Global,
    basis: &Basis<T>,
    base: &[&'static [i64]],
) -> Result<bool, Fail> {
    let rank = basis.rank();
    if rank != base.len() {
        return Ok(false);
    }
    for place in 0..rank {
        let unit = match unit::<T>(alloc, rank, place) {
            Ok(unit) => unit,
            Err(fail) => return Err(fail),
        };
        let is_there = reads(&basis.vector(alloc, &unit).or(Err("refused"))?, base[place]);
        if !is_there {
            return Ok(false);
        }
    }
    Ok(true)
}

// Whether the vector has coordinates, which lead back to it.
fn leads_back<T: Scalar>(
    alloc: Global,
    width: usize,
    basis: &Basis<T>,
    entries: &[i64],
) -> Result<bool, Fail>
    requires { basis.now.width ≡ width }
{
    if entries.len() != width {
        return Ok(false);
    }
    let x = match row::<T>(alloc, entries) {
        Ok(x) => x,
        Err(fail) => return Err(fail),
    };
    match basis.coordinates(alloc, &x) {
        Ok(Some(c)) => Ok(reads(&basis.vector(alloc, &c).or(Err("refused"))?, entries)),
        Ok(None) => Ok(false),
        Err(_) => Err(Fail::from("refused")),
    }
}

// Whether the vector inside has coordinates, and the one outside has none.
fn tells_apart<T: Scalar>(alloc: Global, basis: &Basis<T>, case: &Case) -> Result<bool, Fail>
    requires { basis.now.width ≡ case.now.width }
{
    let is_inside = leads_back(alloc, case.width, basis, case.inside)?;
    let is_outside = leads_back(alloc, case.width, basis, case.outside)?;
    Ok(is_inside && !is_outside)
}

// Whether a form has an entry for each vector of the base.
fn pulls<T: Scalar>(alloc: Global, basis: &Basis<T>, case: &Case) -> Result<bool, Fail>
    requires { basis.now.width ≡ case.now.width }
{
    if case.inside.len() != case.width {
        return Ok(false);
    }
    let form = match row::<T>(alloc, case.inside) {
        Ok(form) => form,
        Err(fail) => return Err(fail),
    };
    match basis.pull(alloc, &form) {
        Ok(pulled) => Ok(pulled.len() == case.base.len()),
        Err(_) => Ok(false),
    }
}

fn is_cut<T: Scalar>(alloc: Global, case: &Case) -> Result<bool, Fail> {
    let basis = match basis_of::<T>(alloc, case.width, case.cuts) {
        Ok(basis) => basis,
        Err(fail) => return Err(fail),
    };
    let is_base = has_base(alloc, &basis, case.base)?;
    let is_told = tells_apart(alloc, &basis, case)?;
    let is_pulled = pulls(alloc, &basis, case)?;
    Ok(is_base && is_told && is_pulled)
}

#[test]
fn worked_lattices(rt: HostRuntime) -> Result<(), Fail> {
    for case in CASES {
        assert!(rt; is_cut::<i64>(rt.alloc(), &case)?);
        assert!(rt; is_cut::<i128>(rt.alloc(), &case)?);
    }
    Ok(())
}
