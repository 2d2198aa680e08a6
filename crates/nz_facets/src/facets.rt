// The rows whose extreme rays are the support forms: the generators, at which a form is to be at
// least 0, and the unit forms of some columns with both signs, where its entry is to be 0.
ghost use Rattle.std.specs.Prelude.{◌≡◌, ◌≢◌, negsuc, ◌++◌, ◌∷◌, [], MatchResult};
ghost use Rattle.nz_spec.specs.Vectors.{scaled};
ghost use Rattle.nz_linear.specs.Echelon.{unit_at};
ghost use Rattle.nz_linear.specs.Facets.{facet_rows};

use nz_pointed::opposite;
use nz_vec::{Num, Places, Rows, Scalar, unit};
use std::alloc::Global;

/// The unit forms of the columns, each with both signs, and then the generators.
pub(crate) fn facet_rows<T: Scalar>(
    alloc: Global,
    width: usize,
    columns: &Places,
    gens: &Rows<T>,
) -> Result<Rows<T>, Num>
    ensures { MatchResult result (λ r. r ≡ facet_rows width columns.now gens.now) (λ e. e ≢ Num.Range) }
{
    let rows = match unit_rows(alloc, width, columns) {
        Ok(rows) => rows,
        Err(refusal) => return Err(refusal),
    };
    match Rows::joined(rows, gens) {
        Ok(all) => Ok(all),
        Err(refusal) => Err(Num::from(refusal)),
    }
}

// The unit forms of the columns, each with both signs.
fn unit_rows<T: Scalar>(alloc: Global, width: usize, columns: &Places) -> Result<Rows<T>, Num>
    ensures { MatchResult result (λ r. r ≡ facet_rows width columns.now []) (λ e. e ≢ Num.Range) }
{
    let mut rows = Rows::new(alloc);
    for index in 0..columns.len() {
        rows = match with_unit_rows(alloc, rows, width, columns.at(index)) {
            Ok(rows) => rows,
            Err(refusal) => return Err(refusal),
        };
    }
    Ok(rows)
}

// Appends the unit form of this column and its opposite. Their numbers are in each type.
fn with_unit_rows<T: Scalar>(
    alloc: Global,
    mut rows: Rows<T>,
    width: usize,
    column: usize,
) -> Result<Rows<T>, Num>
    ensures { MatchResult result (λ r. r ≡ rows ++ unit_at width column ∷ scaled (negsuc 0) (unit_at width column) ∷ []) (λ e. e ≢ Num.Range) }
{
    let row = match unit(alloc, width, column) {
        Ok(row) => row,
        Err(refusal) => return Err(Num::from(refusal)),
    };
    let other = match opposite(alloc, &row) {
        Ok(other) => other,
        Err(refusal) => return Err(refusal),
    };
    match rows.push(row) {
        Ok(()) => {}
        Err(refusal) => return Err(Num::from(refusal)),
    }
    match rows.push(other) {
        Ok(()) => Ok(rows),
        Err(refusal) => Err(Num::from(refusal)),
    }
}
