// The numbers that the last entry of a vector may be, by all forms.
ghost use Rattle.std.specs.Prelude.{◌≡◌, length, MatchOption, Contains};
ghost use Rattle.nz_spec.specs.Vectors.{level_of};
ghost use Rattle.nz_range.specs.Measures.{SomeLargeAt};
ghost use Rattle.nz_lift.specs.Ends.{AreEndsAt, IsIntervalAt, BoundLastEntry};

use crate::narrowing::{Ends, narrowed};
use nz_vec::{Row, Rows, Scalar};

/// The numbers from the lowest to the highest; none where the lowest is above the highest.
#[derive(Drop)]
pub(crate) struct Interval<T: Scalar> {
    pub(crate) low: T,
    pub(crate) high: T,
}

/// The numbers that can be added to the last entry of a vector so that the forms that have a last
/// entry are at least 0. None only where a form has a measure above `HALF` at the vector.
pub(crate) fn interval_at<T: Scalar>(forms: &Rows<T>, x: &Row<T>) -> Option<Interval<T>>
    requires bounding { BoundLastEntry (length x.now) forms.now }
    ensures { MatchOption result (SomeLargeAt T.HALF (Contains forms.now) (λ v. v ≡ x.now)) (λ i. IsIntervalAt forms.now x.now (T.integer i.low) (T.integer i.high)) }
{
    let mut ends = Ends {
        least: None,
        greatest: None,
    };
    for place in 0..forms.len() {
        let form = forms.at(place);
        let value = match form.dot(x) {
            Some(value) => value,
            None => return None,
        };
        ends = match narrowed(ends, value, last_entry(form)) {
            Some(ends) => ends,
            None => return None,
        };
    }
    match (ends.least, ends.greatest) {
        (Some(low), Some(high)) => Some(Interval { low, high }),
        _ => unreachable!(),
    }
}

// The last entry, and 0 where there is none.
fn last_entry<T: Scalar>(form: &Row<T>) -> T
    ensures { T.integer result ≡ level_of form.now }
{
    if form.len() == 0 {
        T::of_i64(0)
    } else {
        form.at(form.len() - 1)
    }
}
