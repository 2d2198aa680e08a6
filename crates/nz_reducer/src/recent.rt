// Where a search looks first.

/// Indices of marks whose entries were found last. They may be of other marks, or of none: only the
/// order of a search depends on them.
#[derive(Drop)]
pub(crate) struct Recent {
    pub(crate) indices: [usize; 8],
    oldest: usize,
}

impl Recent {
    pub(crate) fn new() -> Recent {
        Recent {
            indices: [0; 8],
            oldest: 0,
        }
    }

    /// The mark at this index served.
    pub(crate) fn note(&mut self, index: usize) {
        let slot = self.oldest % 8;
        self.indices[slot] = index;
        self.oldest = slot + 1;
    }

    /// A mark was put in at this index.
    pub(crate) fn shift(&mut self, index: usize) {
        for slot in 0..8 {
            if self.indices[slot] >= index {
                self.indices[slot] = self.indices[slot].saturating_add(1);
            }
        }
    }
}
