//! Texts of outcomes, byte for byte.
ghost use Rattle.std.specs.Prelude.{◌≡◌, ◌∷◌, [], pos, IfOk, length};
ghost use Rattle.std.specs.List.{AllByRecursion as Each};
ghost use Rattle.nz_spec.specs.Vectors.{HasWidth};
ghost use Rattle.nz_tests_text.specs.TestAnswers.{three, zero_fails, odd_three, two_fails};

use nz_blocks::{AskedList, BlockRefusal, Outcome, blocks, read_blocks};
use nz_member::Reply;
use nz_vec::{Constraint, PlaceLists, Places, Row, Rows};
use std::alloc::Global;
use std::test::Fail;

// The even members of the plane, the cone of 1 3 and 2 1 with all its blocks, the numbers of at least 1 with what is asked
// of them, that cone with a grading, the odd numbers with what is asked of them, and those members by half their sum.
const TEXTS: [&[u8]; 6] = [
    b"amb_space 2\nhomogeneous\n\n3 Hilbert basis elements:\n0 2\n1 1\n2 0\n",
    b"amb_space 2\nhomogeneous\n\n4 Hilbert basis elements:\n1 1\n1 2\n1 3\n2 1\n\n2 extreme rays:\n1 3\n2 1\n\n2 support hyperplanes:\n-1  2\n 3 -1\n\n0 equations:\n\n2 extreme generators:\n1 3\n2 1\n\n1 simplices:\n1 2\n",
    b"amb_space 1\ninhomogeneous\n\n1 module generators:\n1 1\n\n1 Hilbert basis elements of recession monoid:\n1 0\n\n2 asked vectors:\n3: in 2*h1 m1\n0: out 1 -1 >= 0 gives -1\n",
    b"amb_space 2\nhomogeneous\ngrading denominator 1\n\n4 Hilbert basis elements:\n1 1\n2 1\n1 2\n1 3\n\n2 degree 1 elements:\n1 1\n2 1\n",
    b"amb_space 1\ninhomogeneous\n\n1 module generators:\n1 1\n\n1 Hilbert basis elements of recession monoid:\n2 0\n\n1 vertices of polyhedron:\n1 1\n\n1 extreme rays of recession cone:\n2 0\n\n2 asked vectors:\n3: in 1*h1 m1\n2: out 1 -1 = 0 mod 2 gives 1\n",
    b"amb_space 2\nhomogeneous\ngrading denominator 2\n",
];

// No texts of an outcome: the last line is missing, a row stands twice, two spaces stand for one, the end of the last line is
// missing, a heading stands twice, blocks stand in another order, numbers are written in other ways, a number has more than
// 128 bits, a place is no generator's, an answer names no module generator, the denominator is 0, is missing before elements
// of degree 1, and is written in another way.
const BAD_TEXTS: [&[u8]; 15] = [
    b"amb_space 2\nhomogeneous\n\n3 Hilbert basis elements:\n0 2\n1 1\n",
    b"amb_space 2\nhomogeneous\n\n3 Hilbert basis elements:\n0 2\n1 1\n2 0\n2 0\n",
    b"amb_space 2\nhomogeneous\n\n3 Hilbert basis elements:\n0  2\n1 1\n2 0\n",
    b"amb_space 2\nhomogeneous\n\n3 Hilbert basis elements:\n0 2\n1 1\n2 0",
    b"amb_space 2\nhomogeneous\n\n1 Hilbert basis elements:\n0 2\n\n1 Hilbert basis elements:\n0 2\n",
    b"amb_space 2\nhomogeneous\ngrading denominator 2\n\n1 degree 1 elements:\n1 1\n\n1 Hilbert basis elements:\n1 1\n",
    b"amb_space 2\nhomogeneous\n\n1 Hilbert basis elements:\n+1 1\n",
    b"amb_space 2\nhomogeneous\n\n1 Hilbert basis elements:\n-0 1\n",
    b"amb_space 2\nhomogeneous\n\n1 Hilbert basis elements:\n01 1\n",
    b"amb_space 1\nhomogeneous\n\n1 Hilbert basis elements:\n170141183460469231731687303715884105728\n",
    b"amb_space 2\nhomogeneous\n\n2 extreme generators:\n1 3\n2 1\n\n1 simplices:\n1 3\n",
    b"amb_space 1\ninhomogeneous\n\n1 module generators:\n1 1\n\n1 Hilbert basis elements of recession monoid:\n1 0\n\n1 asked vectors:\n3: in 2*h1 m2\n",
    b"amb_space 2\nhomogeneous\ngrading denominator 0\n\n1 Hilbert basis elements:\n1 1\n",
    b"amb_space 2\nhomogeneous\n\n1 degree 1 elements:\n1 1\n",
    b"amb_space 2\nhomogeneous\ngrading denominator 02\n\n1 degree 1 elements:\n1 1\n",
];

fn one(alloc: Global, first: i128) -> Result<Row<i128>, Fail>
    ensures { IfOk result (λ r. r ≡ first ∷ []) }
{
    let mut values = match Vec::with_capacity(alloc, 1) {
        Ok(values) => values,
        Err(_) => return Err(Fail::from("no memory")),
    };
    values.push_reserved(first);
    Ok(Row::from_vec(values))
}

fn two(alloc: Global, first: i128, second: i128) -> Result<Row<i128>, Fail>
    ensures { IfOk result (λ r. r ≡ first ∷ second ∷ []) }
{
    let mut values = match Vec::with_capacity(alloc, 2) {
        Ok(values) => values,
        Err(_) => return Err(Fail::from("no memory")),
    };
    values.push_reserved(first);
    values.push_reserved(second);
    Ok(Row::from_vec(values))
}

fn list(alloc: Global, entries: &[[i128; 2]]) -> Result<Rows<i128>, Fail>
    ensures widths { IfOk result (Each (HasWidth 2)) }
    ensures count { IfOk result (λ rows. length rows ≡ length entries.now) }
{
    let mut rows = Rows::new(alloc);
    for place in 0..entries.len() {
        let [first, second] = entries[place];
        let row = match two(alloc, first, second) {
            Ok(row) => row,
            Err(fail) => return Err(fail),
        };
        match rows.push(row) {
            Ok(()) => {}
            Err(_) => return Err(Fail::from("no memory")),
        }
    }
    Ok(rows)
}

// The one simplex of the first two generators.
fn cover(alloc: Global) -> Result<PlaceLists, Fail>
    ensures { IfOk result (λ lists. lists ≡ (0 ∷ 1 ∷ []) ∷ []) }
{
    let mut places = Places::new(alloc);
    places.push(0).or(Err("no memory"))?;
    places.push(1).or(Err("no memory"))?;
    let mut lists = PlaceLists::new(alloc);
    lists.push(places).or(Err("no memory"))?;
    Ok(lists)
}

fn even(alloc: Global) -> Result<Outcome, Fail> {
    let hilbert = list(alloc, &[[0, 2], [1, 1], [2, 0]])?;
    Ok(Outcome {
        amb: 2,
        level: false,
        denominator: None,
        modules: None,
        hilbert: Some(hilbert),
        degree_one: None,
        vertices: None,
        rays: None,
        support: None,
        equations: None,
        generators: None,
        simplices: None,
        asked: None,
    })
}

fn cone(alloc: Global) -> Result<Outcome, Fail> {
    let hilbert = list(alloc, &[[1, 1], [1, 2], [1, 3], [2, 1]])?;
    let rays = list(alloc, &[[1, 3], [2, 1]])?;
    let support = list(alloc, &[[-1, 2], [3, -1]])?;
    let equations = list(alloc, &[])?;
    let generators = list(alloc, &[[1, 3], [2, 1]])?;
    let simplices = cover(alloc)?;
    Ok(Outcome {
        amb: 2,
        level: false,
        denominator: None,
        modules: None,
        hilbert: Some(hilbert),
        degree_one: None,
        vertices: None,
        rays: Some(rays),
        support: Some(support),
        equations: Some(equations),
        generators: Some(generators),
        simplices: Some(simplices),
        asked: None,
    })
}

fn is_three(alloc: Global) -> Result<(Row<i128>, Reply<i128>), Fail>
    ensures { IfOk result (λ a. a ≡ three) }
{
    let x = match one(alloc, 3) {
        Ok(x) => x,
        Err(fail) => return Err(fail),
    };
    match one(alloc, 2) {
        Ok(counts) => Ok((
            x,
            Reply::Parts {
                module: Some(0),
                counts,
            },
        )),
        Err(fail) => Err(fail),
    }
}

fn is_zero(alloc: Global) -> Result<(Row<i128>, Reply<i128>), Fail>
    ensures { IfOk result (λ a. a ≡ zero_fails) }
{
    let x = match one(alloc, 0) {
        Ok(x) => x,
        Err(fail) => return Err(fail),
    };
    match two(alloc, 1, -1) {
        Ok(form) => Ok((x, Reply::Outside(Constraint::NotNegative(form)))),
        Err(fail) => Err(fail),
    }
}

fn ray_asked(alloc: Global) -> Result<AskedList, Fail>
    ensures { IfOk result (λ list. list ≡ three ∷ zero_fails ∷ []) }
{
    let three = match is_three(alloc) {
        Ok(three) => three,
        Err(fail) => return Err(fail),
    };
    let zero = match is_zero(alloc) {
        Ok(zero) => zero,
        Err(fail) => return Err(fail),
    };
    let mut list = AskedList::new(alloc);
    list.push(three).or(Err("no memory"))?;
    list.push(zero).or(Err("no memory"))?;
    Ok(list)
}

fn ray(alloc: Global) -> Result<Outcome, Fail> {
    let modules = list(alloc, &[[1, 1]])?;
    let hilbert = list(alloc, &[[1, 0]])?;
    let asked = ray_asked(alloc)?;
    Ok(Outcome {
        amb: 1,
        level: true,
        denominator: None,
        modules: Some(modules),
        hilbert: Some(hilbert),
        degree_one: None,
        vertices: None,
        rays: None,
        support: None,
        equations: None,
        generators: None,
        simplices: None,
        asked: Some(asked),
    })
}

fn graded(alloc: Global) -> Result<Outcome, Fail> {
    let hilbert = list(alloc, &[[1, 1], [2, 1], [1, 2], [1, 3]])?;
    let degree_one = list(alloc, &[[1, 1], [2, 1]])?;
    Ok(Outcome {
        amb: 2,
        level: false,
        denominator: Some(1),
        modules: None,
        hilbert: Some(hilbert),
        degree_one: Some(degree_one),
        vertices: None,
        rays: None,
        support: None,
        equations: None,
        generators: None,
        simplices: None,
        asked: None,
    })
}

fn is_odd_three(alloc: Global) -> Result<(Row<i128>, Reply<i128>), Fail>
    ensures { IfOk result (λ a. a ≡ odd_three) }
{
    let x = match one(alloc, 3) {
        Ok(x) => x,
        Err(fail) => return Err(fail),
    };
    match one(alloc, 1) {
        Ok(counts) => Ok((
            x,
            Reply::Parts {
                module: Some(0),
                counts,
            },
        )),
        Err(fail) => Err(fail),
    }
}

fn is_two(alloc: Global) -> Result<(Row<i128>, Reply<i128>), Fail>
    ensures { IfOk result (λ a. a ≡ two_fails) }
{
    let x = match one(alloc, 2) {
        Ok(x) => x,
        Err(fail) => return Err(fail),
    };
    match two(alloc, 1, -1) {
        Ok(form) => Ok((x, Reply::Outside(Constraint::Multiple(form, 2)))),
        Err(fail) => Err(fail),
    }
}

fn odd_asked(alloc: Global) -> Result<AskedList, Fail>
    ensures { IfOk result (λ list. list ≡ odd_three ∷ two_fails ∷ []) }
{
    let three = match is_odd_three(alloc) {
        Ok(three) => three,
        Err(fail) => return Err(fail),
    };
    let two = match is_two(alloc) {
        Ok(two) => two,
        Err(fail) => return Err(fail),
    };
    let mut list = AskedList::new(alloc);
    list.push(three).or(Err("no memory"))?;
    list.push(two).or(Err("no memory"))?;
    Ok(list)
}

fn odd(alloc: Global) -> Result<Outcome, Fail> {
    let modules = list(alloc, &[[1, 1]])?;
    let hilbert = list(alloc, &[[2, 0]])?;
    let vertices = list(alloc, &[[1, 1]])?;
    let rays = list(alloc, &[[2, 0]])?;
    let asked = odd_asked(alloc)?;
    Ok(Outcome {
        amb: 1,
        level: true,
        denominator: None,
        modules: Some(modules),
        hilbert: Some(hilbert),
        degree_one: None,
        vertices: Some(vertices),
        rays: Some(rays),
        support: None,
        equations: None,
        generators: None,
        simplices: None,
        asked: Some(asked),
    })
}

fn halved() -> Outcome {
    Outcome {
        amb: 2,
        level: false,
        denominator: Some(2),
        modules: None,
        hilbert: None,
        degree_one: None,
        vertices: None,
        rays: None,
        support: None,
        equations: None,
        generators: None,
        simplices: None,
        asked: None,
    }
}

fn outcome_of(alloc: Global, number: usize) -> Result<Outcome, Fail> {
    match number {
        0 => even(alloc),
        1 => cone(alloc),
        2 => ray(alloc),
        3 => graded(alloc),
        4 => odd(alloc),
        _ => Ok(halved()),
    }
}

#[test]
fn texts_are_exact(rt: HostRuntime) -> Result<(), Fail> {
    for number in 0..TEXTS.len() {
        let outcome = outcome_of(rt.alloc(), number)?;
        let text = blocks(rt.alloc(), &outcome).or(Err("no memory"))?;
        assert!(rt; text.as_slice() == TEXTS[number]);
    }
    Ok(())
}

#[test]
fn texts_are_read_back(rt: HostRuntime) -> Result<(), Fail> {
    for number in 0..TEXTS.len() {
        let outcome = read_blocks(rt.alloc(), TEXTS[number]).or(Err("not read"))?;
        let text = blocks(rt.alloc(), &outcome).or(Err("no memory"))?;
        assert!(rt; text.as_slice() == TEXTS[number]);
    }
    Ok(())
}

#[test]
fn a_text_of_no_outcome_is_bad(rt: HostRuntime) -> Result<(), Fail> {
    for number in 0..BAD_TEXTS.len() {
        match read_blocks(rt.alloc(), BAD_TEXTS[number]) {
            Err(BlockRefusal::Bad) => {}
            Err(BlockRefusal::NoMemory) => return Err(Fail::from("no memory")),
            Ok(_) => return Err(Fail::from("a bad text is read")),
        }
    }
    Ok(())
}
