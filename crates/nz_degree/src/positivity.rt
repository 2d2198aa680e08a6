/// Whether each row of a list has a positive degree.
#[derive(Clone, Copy, Debug, PartialEq, Eq)]
pub enum Positivity {
    Positive,
    /// The place of the row of degree 0 or less that comes first in the order of the list:
    /// the smallest degree, and then the first lexicographically.
    NotPositive(usize),
}
