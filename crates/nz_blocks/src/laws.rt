//! The law of output texts: the function says it, and does nothing.
ghost use Rattle.nz_blocks.specs.Laws.{OneOutcome};

/// A text is the text of one outcome.
pub fn texts_have_one_outcome()
    ensures { OneOutcome }
{}
