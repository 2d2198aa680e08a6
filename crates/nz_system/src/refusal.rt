//! Why a file has no system.

/// The rule of meaning that a file breaks.
#[derive(Clone, Copy, PartialEq, Eq, Debug, Drop)]
pub enum MeaningFault {
    /// The rows of all items up to this one are more than 1024.
    RowLimit,
    /// The last entry of a congruence is below 1.
    Modulus,
    /// A sign is none of -1, 0 and 1.
    Sign,
    /// The last entry of a vertex is below 1.
    Denominator,
    /// An exponent of a monomial is below 0.
    Exponent,
    /// A second item of a kind that may stand once: `signs`, `strict_signs` or `grading`.
    Repeated,
    /// `cone_and_lattice` beside `cone`, or in an inhomogeneous file; `monomial_ideal` and an item of
    /// another kind in one file.
    Mixed,
    /// Elements of degree 1 are asked, and no grading is given.
    NoGrading,
    /// Module generators are asked, and the file is homogeneous.
    NoLevel,
}

/// Why a file has no system. Items count from 1 in file order, without the goal words; rows of an
/// item count from 1. Row 0 is the item itself, and item 0 the file.
#[derive(Clone, Copy, PartialEq, Eq, Debug, Drop)]
pub enum SystemRefusal {
    Meaning {
        item: u64,
        row: u32,
        fault: MeaningFault,
    },
    NoMemory,
}
