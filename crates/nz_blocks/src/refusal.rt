use thiserror::Error;

/// Why a text is not read.
#[derive(Clone, Copy, Debug, Drop, PartialEq, Eq, Error)]
pub enum BlockRefusal {
    /// It is the text of no outcome.
    #[error("bad blocks")]
    Bad,
    #[error("no memory")]
    NoMemory,
}
