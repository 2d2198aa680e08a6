//! Covers, at both widths.
ghost use Rattle.std.specs.Prelude.{◌≡◌, IfOk, length};
ghost use Rattle.std.specs.List.{AllByRecursion as Each};
ghost use Rattle.nz_spec.specs.Vectors.{HasWidth};
ghost use Rattle.nz_cover.specs.Placing.{ArePlaceable};

use nz_cover::{Cover, place};
use nz_pointed::{Pointed, start};
use nz_vec::{PlaceLists, Places, Row, Rows, Scalar, Work};
use nz_watch::{MemWatch, Watch};
use std::alloc::Global;
use std::process::Abort;
use std::test::Fail;

// Rays of this width, how many stages are told before, at which call the watch says stop (0 for
// never), and what is wanted: the simplices, or the stage of the stop; and the pairs told.
#[derive(Clone, Copy)]
struct Case {
    width: usize,
    rays: &'static [&'static [i64]],
    told_before: u64,
    stop_at: u64,
    simplices: &'static [&'static [usize]],
    stopped: u64,
    told: &'static [(u64, u64)],
}

// No ray; one simplex in the plane; a square cone; it with a stop at each stage, and with the first
// stage told before; the three columns of magic squares that determine them; one simplex; a cone over
// a pentagon.
const CASES: [Case; 9] = [
    Case {
        width: 0,
        rays: &[],
        told_before: 0,
        stop_at: 1,
        simplices: &[],
        stopped: 0,
        told: &[],
    },
    Case {
        width: 2,
        rays: &[&[1, 3], &[2, 1]],
        told_before: 0,
        stop_at: 0,
        simplices: &[&[0, 1]],
        stopped: 0,
        told: &[(2, 2)],
    },
    Case {
        width: 3,
        rays: &[&[0, 0, 1], &[0, 1, 1], &[1, 0, 1], &[1, 1, 1]],
        told_before: 0,
        stop_at: 0,
        simplices: &[&[0, 1, 2], &[1, 2, 3]],
        stopped: 0,
        told: &[(3, 3), (4, 4)],
    },
    Case {
        width: 3,
        rays: &[&[0, 0, 1], &[0, 1, 1], &[1, 0, 1], &[1, 1, 1]],
        told_before: 0,
        stop_at: 1,
        simplices: &[],
        stopped: 3,
        told: &[(3, 3)],
    },
    Case {
        width: 3,
        rays: &[&[0, 0, 1], &[0, 1, 1], &[1, 0, 1], &[1, 1, 1]],
        told_before: 0,
        stop_at: 2,
        simplices: &[],
        stopped: 4,
        told: &[(3, 3), (4, 4)],
    },
    Case {
        width: 3,
        rays: &[&[0, 0, 1], &[0, 1, 1], &[1, 0, 1], &[1, 1, 1]],
        told_before: 1,
        stop_at: 0,
        simplices: &[&[0, 1, 2], &[1, 2, 3]],
        stopped: 0,
        told: &[(4, 4)],
    },
    Case {
        width: 3,
        rays: &[&[0, 2, 1], &[1, 0, 2], &[1, 2, 0], &[2, 0, 1]],
        told_before: 0,
        stop_at: 0,
        simplices: &[&[0, 1, 2], &[1, 2, 3]],
        stopped: 0,
        told: &[(3, 3), (4, 4)],
    },
    Case {
        width: 3,
        rays: &[&[1, 3, 0], &[2, 1, 0], &[0, 0, 1]],
        told_before: 0,
        stop_at: 0,
        simplices: &[&[0, 1, 2]],
        stopped: 0,
        told: &[(3, 3)],
    },
    Case {
        width: 3,
        rays: &[&[0, 0, 1], &[2, 0, 1], &[0, 2, 1], &[3, 2, 1], &[2, 3, 1]],
        told_before: 0,
        stop_at: 0,
        simplices: &[&[0, 1, 2], &[1, 2, 3], &[2, 3, 4]],
        stopped: 0,
        told: &[(3, 3), (4, 4), (5, 5)],
    },
];

fn row<T: Scalar>(alloc: Global, entries: &[i64]) -> Result<Row<T>, Fail>
    ensures { IfOk result (λ r. length r ≡ length entries.now) }
{
    let mut values = match Vec::with_capacity(alloc, entries.len()) {
        Ok(values) => values,
        Err(_) => return Err(Fail::from("no memory")),
    };
    for place in 0..entries.len() {
        values.push_reserved(T::of_i64(entries[place]));
    }
    Ok(Row::from_vec(values))
}

fn with<T: Scalar>(
    alloc: Global,
    mut rows: Rows<T>,
    width: usize,
    entries: &[i64],
) -> Result<Rows<T>, Fail>
    requires { Each (HasWidth width) rows }
    ensures { IfOk result (Each (HasWidth width)) }
{
    if entries.len() != width {
        return Err(Fail::from("another width"));
    }
    match row(alloc, entries) {
        Ok(row) => match rows.push(row) {
            Ok(()) => Ok(rows),
            Err(_) => Err(Fail::from("no memory")),
        },
        Err(fail) => Err(fail),
    }
}

fn rows_of<T: Scalar>(
    alloc: Global,
    width: usize,
    entries: &[&'static [i64]],
) -> Result<Rows<T>, Fail>
    ensures { IfOk result (Each (HasWidth width)) }
{
    let mut rows = Rows::new(alloc);
    for i in 0..entries.len() {
        rows = match with(alloc, rows, width, entries[i]) {
            Ok(rows) => rows,
            Err(fail) => return Err(fail),
        };
    }
    Ok(rows)
}

fn watch_of(alloc: Global, stop_at: u64) -> Result<MemWatch, Fail> {
    let watch = match stop_at {
        0 => MemWatch::new(alloc, 5, None),
        number => MemWatch::new(alloc, 5, Some(number)),
    };
    match watch {
        Ok(watch) => Ok(watch),
        Err(_) => Err(Fail::from("no memory")),
    }
}

fn names(places: &Places, wanted: &[usize]) -> bool {
    if places.len() != wanted.len() {
        return false;
    }
    for i in 0..wanted.len() {
        if i < places.len() && places.at(i) != wanted[i] {
            return false;
        }
    }
    true
}

fn lists(simplices: &PlaceLists, wanted: &[&'static [usize]]) -> bool {
    if simplices.len() != wanted.len() {
        return false;
    }
    for i in 0..wanted.len() {
        if i < simplices.len() && !names(simplices.at(i), wanted[i]) {
            return false;
        }
    }
    true
}

fn is_told(watch: &Box<dyn Watch>, wanted: &[(u64, u64)]) -> bool {
    for i in 0..wanted.len() {
        if watch.pair(i) != Some(wanted[i]) {
            return false;
        }
    }
    watch.pair(wanted.len()) == None
}

fn is_wanted<T: Scalar>(answer: &Result<Cover<T>, Work>, case: Case) -> bool {
    match answer {
        Ok(cover) => case.stopped == 0 && lists(&cover.simplices, case.simplices),
        Err(Work::Stopped { stage }) => *stage == case.stopped,
        Err(_) => false,
    }
}

fn agrees<T: Scalar>(alloc: Global, rays: &Rows<T>, width: usize, case: Case) -> Result<bool, Fail>
    requires { ArePlaceable width rays.now }
{
    let watch = match watch_of(alloc, case.stop_at) {
        Ok(watch) => watch,
        Err(fail) => return Err(fail),
    };
    let mut watch: Box<dyn Watch> = match Box::new(alloc, watch) {
        Ok(watch) => watch,
        Err(_) => return Err(Fail::from("no memory")),
    };
    let answer = place(alloc, rays, width, case.told_before, &mut watch);
    Ok(is_wanted(&answer, case) && is_told(&watch, case.told))
}

fn agrees_if_full<T: Scalar>(
    alloc: Global,
    rays: &Rows<T>,
    width: usize,
    case: Case,
) -> Result<bool, Fail>
    requires { Each (HasWidth width) rays.now }
{
    match start(alloc, rays, width) {
        Ok(Pointed::Simplex(_)) => agrees(alloc, rays, width, case),
        Ok(Pointed::Line(_)) => Ok(false),
        Err(_) => Ok(false),
    }
}

fn is_placed<T: Scalar>(alloc: Global, case: Case) -> Result<bool, Fail> {
    match rows_of::<T>(alloc, case.width, case.rays) {
        Ok(rays) => agrees_if_full(alloc, &rays, case.width, case),
        Err(fail) => Err(fail),
    }
}

#[test]
fn places_rays(rt: HostRuntime) -> Result<(), Fail> {
    for case in CASES {
        assert!(rt; is_placed::<i64>(rt.alloc(), case)?);
        assert!(rt; is_placed::<i128>(rt.alloc(), case)?);
    }
    Ok(())
}
