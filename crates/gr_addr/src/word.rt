//! Operations on one word.
ghost use Rattle.std.specs.Prelude.{◌≡◌};

/// An operation on one word.
#[derive(Clone, Copy, PartialEq, Eq)]
pub enum WordOp {
    /// Changes nothing.
    Read,
    /// Stores a word.
    Write { word: u64 },
    /// Adds a word, wrapping.
    Add { word: u64 },
    /// Stores `new` where the word is `old`.
    Cas { old: u64, new: u64 },
}

impl WordOp {
    ghost use Rattle.gr_addr.specs.WordCalls.{stored};

    /// The word after the operation on it.
    pub fn stored(self, before: u64) -> u64
        ensures { result ≡ stored self before }
    {
        match self {
            WordOp::Read => before,
            WordOp::Write { word } => word,
            WordOp::Add { word } => before.wrapping_add(word),
            WordOp::Cas { old, new } => if before == old { new } else { before },
        }
    }
}
