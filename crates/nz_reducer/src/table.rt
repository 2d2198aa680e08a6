//! Tables of value lists.
ghost use Rattle.std.specs.Prelude.{◌≡◌, ℕ, ℤ, List, [], ◌∷◌, ◌++◌, length, OnOk, OnErr, MatchOption};
ghost use Rattle.nz_reducer.specs.Tables.{NoneIsBelow, IsFirstBelow};

use nz_vec::{NoMemory, Row, Scalar};

/// A list of value lists of one width. What has entry by entry at most the values of a vector can be
/// taken from it, so a table finds what reduces a vector.
pub trait Table<T: Scalar> {
    /// The number of values in an entry.
    ghost columns: { Self → ℕ };

    /// What was put, in order.
    ghost listed: { Self → List (List ℤ) };

    fn width(&self) -> usize
        ensures { result ≡ columns self.now };

    fn len(&self) -> usize
        ensures { result ≡ length (listed self.now) };

    /// Appends these values.
    fn put(&mut self, values: &Row<T>) -> Result<(), NoMemory>
        requires { length values.now ≡ columns self.old }
        ensures width { columns self.new ≡ columns self.old }
        ensures ok { OnOk result (listed self.new ≡ listed self.old ++ values.now ∷ []) }
        ensures err { OnErr result (listed self.new ≡ listed self.old) };

    /// The least place whose entry is at most these values in every column.
    fn first(&self, values: &Row<T>) -> Option<usize>
        requires { length values.now ≡ columns self.now }
        ensures { MatchOption result (NoneIsBelow (listed self.now) values.now) (IsFirstBelow (listed self.now) values.now) };
}
