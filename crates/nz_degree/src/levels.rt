ghost use Rattle.std.specs.Prelude.{◌≡◌, ◌≢◌, ◌≤◌, ◌<◌, ℤ, pos, true, false, length, IfOk, MatchBool};
ghost use Rattle.std.specs.List.{AllByRecursion as Each};
ghost use Rattle.nz_spec.specs.Vectors.{Vector};
ghost use Rattle.nz_order.specs.Picks.{Picks};
ghost use Rattle.nz_degree.specs.Levels.{IsAtLevel, IsOnSide, HasEntry, LevelsAreElements};

use nz_vec::{NoMemory, Row, Rows, Scalar};
use std::alloc::Global;

/// The rows of level 0 and those of level 1.
#[derive(Drop)]
pub struct Levels<T: Scalar> {
    pub zero: Rows<T>,
    pub one: Rows<T>,
}

/// The rows whose last entry is 0 and those whose last entry is 1, each in the order of the list.
pub fn split<T: Scalar>(alloc: Global, list: &Rows<T>) -> Result<Levels<T>, NoMemory>
    requires { Each HasEntry list.now }
    ensures zero { IfOk result (λ levels. Picks (IsAtLevel (pos 0)) list.now levels.zero) }
    ensures one { IfOk result (λ levels. Picks (IsAtLevel (pos 1)) list.now levels.one) }
{
    let zero = picked(alloc, list, T::of_i64(0), true)?;
    let one = picked(alloc, list, T::of_i64(1), true)?;
    Ok(Levels { zero, one })
}

/// Extreme generators by their level.
#[derive(Drop)]
pub struct ExtremeLevels<T: Scalar> {
    /// Those of level 0.
    pub rays: Rows<T>,
    /// The others.
    pub vertices: Rows<T>,
}

/// The rows whose last entry is 0 and the others, each in the order of the list.
pub fn split_extreme<T: Scalar>(alloc: Global, list: &Rows<T>) -> Result<ExtremeLevels<T>, NoMemory>
    requires { Each HasEntry list.now }
    ensures rays { IfOk result (λ levels. Picks (IsAtLevel (pos 0)) list.now levels.rays) }
    ensures vertices { IfOk result (λ levels. Picks (λ x. ¬ IsAtLevel (pos 0) x) list.now levels.vertices) }
{
    let rays = picked(alloc, list, T::of_i64(0), true)?;
    let vertices = picked(alloc, list, T::of_i64(0), false)?;
    Ok(ExtremeLevels { rays, vertices })
}

/// Of the irreducible elements of a system with a level, those of level 0 are its Hilbert basis
/// and those of level 1 its module generators.
pub fn levels_are_elements()
    ensures { LevelsAreElements }
{}

// The rows of this level, or those of all others.
fn picked<T: Scalar>(
    alloc: Global,
    list: &Rows<T>,
    level: T,
    there: bool,
) -> Result<Rows<T>, NoMemory>
    requires { Each HasEntry list.now }
    ensures { IfOk result (Picks (IsOnSide there (T.integer level)) list.now) }
{
    let mut picked = Rows::new(alloc);
    for place in 0..list.len() {
        let row = list.at(place);
        if is_on_side(row, level, there) {
            picked.push(row.try_copy()?)?;
        }
    }
    Ok(picked)
}

// Whether the row has this level, or that it has not.
fn is_on_side<T: Scalar>(row: &Row<T>, level: T, there: bool) -> bool
    requires { HasEntry row.now }
    ensures { MatchBool result (IsOnSide there (T.integer level) row.now) (¬ IsOnSide there (T.integer level) row.now) }
{
    is_at(row, level) == there
}

// Whether the last entry of the row is this one.
fn is_at<T: Scalar>(row: &Row<T>, level: T) -> bool
    requires { HasEntry row.now }
    ensures { MatchBool result (IsAtLevel (T.integer level) row.now) (¬ IsAtLevel (T.integer level) row.now) }
{
    same(row.at(row.len() - 1), level)
}

// Whether two values stand for one integer.
fn same<T: Scalar>(a: T, b: T) -> bool
    ensures { MatchBool result (T.integer a ≡ T.integer b) (T.integer a ≢ T.integer b) }
{
    a == b
}
