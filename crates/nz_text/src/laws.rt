//! Laws of pieces: the function says one, and does nothing.
ghost use Rattle.nz_text.specs.Laws.{OneStep};

/// What stands behind a place is one thing.
pub fn steps_are_unique()
    ensures { OneStep }
{}
