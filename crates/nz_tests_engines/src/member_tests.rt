//! What is answered of vectors, at both widths.
ghost use Rattle.std.specs.Prelude.{◌≡◌, ⊤, IfOk, MatchOption, length};
ghost use Rattle.std.specs.List.{AllByRecursion as Each};
ghost use Rattle.nz_spec.specs.Vectors.{HasWidth};
ghost use Rattle.nz_vec.specs.Conditions.{condition_of};
ghost use Rattle.nz_member.specs.Values.{IsOfWidth};
ghost use Rattle.nz_member.specs.Replies.{IsInMonoid};

use nz_member::{Reply, answer, member};
use nz_vec::{Constraint, Constraints, Num, Row, Rows, Scalar};
use std::alloc::Global;
use std::process::Abort;
use std::test::Fail;

// A monoid with its elements, where 0 0 stands for none, and what is answered of a vector: the
// form that fails, or how often each element is taken.
#[derive(Clone, Copy)]
struct Case {
    rows: [[i64; 2]; 2],
    last_is_even: bool,
    elements: [[i64; 2]; 4],
    generator: Option<[i64; 2]>,
    asked: [i64; 2],
    outside: Option<[i64; 2]>,
    counts: [i64; 4],
}

const CONE: Case = Case {
    rows: [[-1, 2], [3, -1]],
    last_is_even: false,
    elements: [[1, 1], [1, 2], [1, 3], [2, 1]],
    generator: None,
    asked: [0, 0],
    outside: None,
    counts: [0, 0, 0, 0],
};

// What lies in the group of 1 0 and 1 2.
const GROUP: Case = Case {
    rows: [[0, 1], [2, -1]],
    last_is_even: true,
    elements: [[1, 0], [1, 2], [0, 0], [0, 0]],
    generator: None,
    asked: [1, 1],
    outside: Some([0, 1]),
    counts: [0, 0, 0, 0],
};

// The numbers of at least 1, with their level.
const RAY: Case = Case {
    rows: [[1, -1], [0, 1]],
    last_is_even: false,
    elements: [[1, 0], [0, 0], [0, 0], [0, 0]],
    generator: Some([1, 1]),
    asked: [0, 1],
    outside: Some([1, -1]),
    counts: [0, 0, 0, 0],
};

const MANY: i64 = 100_000_000_000_000_000;

const CASES: [Case; 8] = [
    CONE,
    Case {
        asked: [3, 4],
        counts: [2, 1, 0, 0],
        ..CONE
    },
    Case {
        asked: [1, 4],
        outside: Some([3, -1]),
        ..CONE
    },
    GROUP,
    Case {
        asked: [3, 4],
        outside: None,
        counts: [1, 2, 0, 0],
        ..GROUP
    },
    RAY,
    Case {
        asked: [3, 1],
        outside: None,
        counts: [2, 0, 0, 0],
        ..RAY
    },
    Case {
        asked: [MANY + 1, 1],
        outside: None,
        counts: [MANY, 0, 0, 0],
        ..RAY
    },
];

fn row<T: Scalar>(alloc: Global, entries: [i64; 2]) -> Result<Row<T>, Fail>
    ensures { IfOk result (λ r. length r ≡ 2) }
{
    let [first, second] = entries;
    let mut values = match Vec::with_capacity(alloc, 2) {
        Ok(values) => values,
        Err(_) => return Err(Fail::from("no memory")),
    };
    values.push_reserved(T::of_i64(first));
    values.push_reserved(T::of_i64(second));
    Ok(Row::from_vec(values))
}

fn with<T: Scalar>(
    mut constraints: Constraints<T>,
    constraint: Constraint<T>,
) -> Result<Constraints<T>, Fail>
    requires listed { Each (IsOfWidth 2) constraints }
    requires more { IsOfWidth 2 (condition_of T.integer constraint) }
    ensures { IfOk result (Each (IsOfWidth 2)) }
{
    match constraints.push(constraint) {
        Ok(()) => Ok(constraints),
        Err(_) => Err(Fail::from("no memory")),
    }
}

fn constraints_of<T: Scalar>(alloc: Global, case: Case) -> Result<Constraints<T>, Fail>
    ensures { IfOk result (Each (IsOfWidth 2)) }
{
    let [first, second] = case.rows;
    let none = Constraints::new(alloc);
    let one = match with(none, Constraint::NotNegative(row(alloc, first)?)) {
        Ok(one) => one,
        Err(fail) => return Err(fail),
    };
    let both = match with(one, Constraint::NotNegative(row(alloc, second)?)) {
        Ok(both) => both,
        Err(fail) => return Err(fail),
    };
    if case.last_is_even {
        with(
            both,
            Constraint::Multiple(row(alloc, [0, 1])?, T::of_i64(2)),
        )
    } else {
        Ok(both)
    }
}

// The list with one element more, if the vector is a member.
fn with_element<T: Scalar>(
    alloc: Global,
    constraints: &Constraints<T>,
    mut elements: Rows<T>,
    entries: [i64; 2],
) -> Result<Rows<T>, Fail>
    requires forms { Each (IsOfWidth 2) constraints.now }
    requires listed { Each (IsInMonoid 2 constraints.now) elements }
    ensures { IfOk result (Each (IsInMonoid 2 constraints.now)) }
{
    let element = match row(alloc, entries) {
        Ok(element) => element,
        Err(fail) => return Err(fail),
    };
    match member(constraints, &element) {
        Some(true) => match elements.push(element) {
            Ok(()) => Ok(elements),
            Err(_) => Err(Fail::from("no memory")),
        },
        _ => Err(Fail::from("no member")),
    }
}

fn elements_of<T: Scalar>(
    alloc: Global,
    constraints: &Constraints<T>,
    case: Case,
) -> Result<Rows<T>, Fail>
    requires { Each (IsOfWidth 2) constraints.now }
    ensures { IfOk result (Each (IsInMonoid 2 constraints.now)) }
{
    let mut elements = Rows::new(alloc);
    for entries in case.elements {
        if entries != [0, 0] {
            elements = match with_element(alloc, constraints, elements, entries) {
                Ok(elements) => elements,
                Err(fail) => return Err(fail),
            };
        }
    }
    Ok(elements)
}

fn reply_of<T: Scalar>(alloc: Global, case: Case) -> Result<Result<Reply<T>, Num>, Fail> {
    let constraints = match constraints_of::<T>(alloc, case) {
        Ok(constraints) => constraints,
        Err(fail) => return Err(fail),
    };
    let elements = match elements_of(alloc, &constraints, case) {
        Ok(elements) => elements,
        Err(fail) => return Err(fail),
    };
    let asked = match row(alloc, case.asked) {
        Ok(asked) => asked,
        Err(fail) => return Err(fail),
    };
    let generators = match generators_of(alloc, case.generator.unwrap_or([1, 1])) {
        Ok(generators) => generators,
        Err(fail) => return Err(fail),
    };
    let modules = given(&generators, case.generator.is_some());
    Ok(answer(alloc, &constraints, &asked, &elements, modules))
}

fn given<T: Scalar>(generators: &Rows<T>, any: bool) -> Option<&Rows<T>>
    requires { Each (HasWidth 2) generators.now }
    ensures { MatchOption result ⊤ (λ g. Each (HasWidth 2) g.now) }
{
    if any { Some(generators) } else { None }
}

fn generators_of<T: Scalar>(alloc: Global, entries: [i64; 2]) -> Result<Rows<T>, Fail>
    ensures { IfOk result (Each (HasWidth 2)) }
{
    let generator = match row(alloc, entries) {
        Ok(generator) => generator,
        Err(fail) => return Err(fail),
    };
    let mut generators = Rows::new(alloc);
    match generators.push(generator) {
        Ok(()) => Ok(generators),
        Err(_) => Err(Fail::from("no memory")),
    }
}

fn reads<T: Scalar>(row: &Row<T>, entries: [i64; 2]) -> bool {
    let [first, second] = entries;
    row.len() == 2
        && row.at(0).to_i128() == i128::from(first)
        && row.at(1).to_i128() == i128::from(second)
}

fn has_form<T: Scalar>(constraint: &Constraint<T>, entries: [i64; 2]) -> bool {
    match constraint {
        Constraint::Zero(form) => reads(form, entries),
        Constraint::Multiple(form, _) => reads(form, entries),
        Constraint::NotNegative(form) => reads(form, entries),
    }
}

fn has_counts<T: Scalar>(counts: &Row<T>, case: Case) -> bool {
    if counts.len() > 4 {
        return false;
    }
    for place in 0..counts.len() {
        if counts.at(place).to_i128() != i128::from(case.counts[place]) {
            return false;
        }
    }
    true
}

fn is_expected<T: Scalar>(reply: &Reply<T>, case: Case) -> bool {
    match reply {
        Reply::Outside(constraint) => match case.outside {
            Some(form) => has_form(constraint, form),
            None => false,
        },
        Reply::Parts { module, counts } => {
            case.outside.is_none()
                && module.is_some() == case.generator.is_some()
                && has_counts(counts, case)
        }
    }
}

fn answers<T: Scalar>(rt: &impl Abort, alloc: Global) -> Result<(), Fail> {
    for case in CASES {
        match reply_of::<T>(alloc, case)? {
            Ok(reply) => assert!(rt; is_expected(&reply, case)),
            Err(_) => return Err(Fail::from("refused")),
        }
    }
    Ok(())
}

// 2 times 2 to the 62nd is no value of 64 bits.
fn range(rt: &impl Abort, alloc: Global) -> Result<(), Fail> {
    let case = Case {
        asked: [1 << 62, 1 << 62],
        counts: [1 << 62, 0, 0, 0],
        ..CONE
    };
    match reply_of::<i64>(alloc, case)? {
        Err(Num::Range) => {}
        _ => return Err(Fail::from("a value of 65 bits")),
    }
    match reply_of::<i128>(alloc, case)? {
        Ok(reply) => assert!(rt; is_expected(&reply, case)),
        Err(_) => return Err(Fail::from("refused")),
    }
    Ok(())
}

#[test]
fn asked_vectors(rt: HostRuntime) -> Result<(), Fail> {
    answers::<i64>(&rt, rt.alloc())?;
    answers::<i128>(&rt, rt.alloc())?;
    range(&rt, rt.alloc())
}
