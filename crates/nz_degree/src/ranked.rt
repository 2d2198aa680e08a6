// A row with its degree, or with 0 where no grading is given: in the order of its fields.
#[derive(PartialEq, Eq, PartialOrd, Ord, Drop)]
pub(crate) struct Ranked<T: Ord> {
    pub(crate) degree: T,
    pub(crate) entries: Vec<T>,
}
