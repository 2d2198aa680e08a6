//! The lattice points of a system.
ghost use Rattle.std.specs.Prelude.{◌≡◌, ◌≤◌, ◌-◌, ◌⊎◌, length, map, IsTrue, None, IfOk, IfErr, MatchResult};
ghost use Rattle.std.specs.List.{AllByRecursion as Each};
ghost use Rattle.std.specs.List.Sorted.{IsPermutation};
ghost use Rattle.nz_spec.specs.Vectors.{HasWidth};
ghost use Rattle.nz_linear.specs.Echelon.{unit_at};
ghost use Rattle.nz_linear.specs.Coordinates.{in_coordinates};
ghost use Rattle.nz_degree.specs.Degrees.{IsInOrder};
ghost use Rattle.nz_sweep.specs.Bases.{ValueSumsFit};
ghost use Rattle.nz_sweep.specs.Lists.{LacksVector};
ghost use Rattle.nz_sweep.specs.Bases.{CombinationSumsFit};
ghost use Rattle.nz_frame.specs.Frames.{vector_at};
ghost use Rattle.nz_lift.specs.SystemPoints.{ArePointsOrAlong};
ghost use Rattle.nz_lift.specs.SystemRefusals.{IsSystemRefusal};

use crate::points::{Lifted, lift, untold};
use nz_degree::sort;
use nz_frame::{Frame, frame_of};
use nz_sweep::{Basis, all_vectors};
use nz_system::SystemOver;
use nz_vec::{Ints, NoMemory, Num, Row, Rows, Scalar, Work, unit};
use std::alloc::Global;

/// The lattice points of a bounded system, or a vector along which a system is not bounded.
#[derive(Drop)]
pub enum SystemPoints<T: Scalar> {
    /// The points, in the coordinates of the file, lexicographically.
    Points(Rows<T>),
    /// A nonzero member of level 0, and no multiple of a shorter member.
    Unbounded(Ints),
}

/// The lattice points of a system with a level, in the coordinates of the file, lexicographically: no more
/// than the limit. Of a system that is not bounded a nonzero member of level 0 in their place.
///
/// Range comes only where a number is above `HALF`: one of the system's own, one of `lift` in the
/// coordinates of its base, or one of the way back from these. TooMany comes only where `lift` there has
/// too many vectors for the limit. Stopped never comes, and no stage is told.
pub fn system_points<T: Scalar>(
    alloc: Global,
    system: &SystemOver<T>,
    limit: u32,
) -> Result<SystemPoints<T>, Work>
    requires { IsTrue system.now.system.level }
    ensures { MatchResult result (ArePointsOrAlong limit system.now.system) (IsSystemRefusal T.HALF limit system.now.system) }
{
    system.kept();
    let frame = match frame_of(alloc, system) {
        Ok(frame) => frame,
        Err(refusal) => return Err(untold(refusal)),
    };
    let level = match level_row(alloc, &frame.base, system.width as usize) {
        Ok(level) => level,
        Err(refusal) => return Err(untold(refusal)),
    };
    match lift(alloc, &frame.rows, &level, frame.base.rank(), limit) {
        Ok(Lifted::Points(points)) => match points_back(alloc, &frame, &points) {
            Ok(points) => Ok(SystemPoints::Points(points)),
            Err(refusal) => Err(untold(refusal)),
        },
        Ok(Lifted::Unbounded(along)) => match along_back(alloc, &frame.base, &along) {
            Ok(vector) => Ok(SystemPoints::Unbounded(vector)),
            Err(refusal) => Err(untold(refusal)),
        },
        Err(refusal) => Err(refusal),
    }
}

// The level, as a form in the coordinates of the base.
fn level_row<T: Scalar>(alloc: Global, base: &Basis<T>, width: usize) -> Result<Row<T>, Num>
    requires width { base.now.width ≡ width }
    requires some { 1 ≤ width }
    ensures { MatchResult result (λ f. f ≡ in_coordinates base.now.vectors (unit_at width (width - 1))) (λ e. e ≡ Num.Range → ¬ ValueSumsFit T.fits (unit_at width (width - 1)) base.now.vectors) }
{
    let form = match unit(alloc, width, width - 1) {
        Ok(form) => form,
        Err(refusal) => return Err(Num::from(refusal)),
    };
    base.pull(alloc, &form)
}

// The points in the coordinates of the file, in order.
fn points_back<T: Scalar>(alloc: Global, frame: &Frame<T>, points: &Rows<T>) -> Result<Rows<T>, Num>
    requires { Each (HasWidth (length frame.now.base.vectors)) points.now }
    ensures list { IfOk result (λ b. IsPermutation (map (λ c. vector_at frame.now.base c) points.now) b × IsInOrder None b) }
    ensures cause { IfErr result (λ e. e ≡ Num.Range → LacksVector T.fits frame.now.base points.now) }
{
    let list = match all_vectors(alloc, &frame.base, points) {
        Ok(list) => list,
        Err(refusal) => return Err(refusal),
    };
    match sorted(alloc, list) {
        Ok(list) => Ok(list),
        Err(refusal) => Err(Num::from(refusal)),
    }
}

// The vector with these coordinates, as it is shown.
fn along_back<T: Scalar>(alloc: Global, base: &Basis<T>, along: &Row<T>) -> Result<Ints, Num>
    requires { length along.now ≡ length base.now.vectors }
    ensures { MatchResult result (λ x. x ≡ vector_at base.now along.now) (λ e. e ≡ Num.Range → ¬ CombinationSumsFit T.fits base.now.width along.now base.now.vectors) }
{
    let vector = match base.vector(alloc, along) {
        Ok(vector) => vector,
        Err(refusal) => return Err(refusal),
    };
    match shown(alloc, &vector) {
        Ok(entries) => Ok(entries),
        Err(refusal) => Err(Num::from(refusal)),
    }
}

// The entries of the row.
fn shown<T: Scalar>(alloc: Global, row: &Row<T>) -> Result<Ints, NoMemory>
    ensures { IfOk result (λ v. v ≡ row.now) }
{
    let mut entries = Ints::new(alloc);
    for place in 0..row.len() {
        match entries.push(row.at(place).to_i128()) {
            Ok(()) => {}
            Err(refusal) => return Err(refusal),
        }
    }
    Ok(entries)
}

// The list, lexicographically.
fn sorted<T: Scalar>(alloc: Global, mut list: Rows<T>) -> Result<Rows<T>, NoMemory>
    ensures { IfOk result (λ r. IsPermutation list r × IsInOrder None r) }
{
    match sort(alloc, &mut list, no_grading()) {
        Ok(()) => Ok(list),
        Err(_) => Err(NoMemory),
    }
}

// Vectors are sorted by no degree.
fn no_grading<'a, T: Scalar>() -> Option<&'a Row<T>>
    ensures { result ≡ None }
{
    None
}
