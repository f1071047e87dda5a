//! A stack of words.
ghost use Rattle.std.specs.Prelude.{◌≡◌, ◌∷◌, [], OnOk};
ghost use Rattle.gr_tables.specs.Stacks.{top_of, under_top};

use std::alloc::{AllocError, Global};
use std::marker::Model;

/// A stack of words, which contracts see as a list with the newest word first.
#[derive(Drop)]
pub struct WordStack {
    words: Vec<u64>,
}

impl Model for WordStack {
    ghost use Rattle.std.specs.Prelude.{List, ℕ};

    ghost Value = { List ℕ };

    ghost use Rattle.gr_tables.specs.StackView.{newest_first};

    ghost view = { λ s. newest_first s.words.items };
}

impl WordStack {
    /// No words.
    pub fn new(alloc: Global) -> WordStack
        ensures { result ≡ [] }
    {
        WordStack {
            words: Vec::new(alloc),
        }
    }

    /// The newest word.
    pub fn top(&self) -> Option<u64>
        ensures { result ≡ top_of self.now }
    {
        match self.words.last() {
            None => None,
            Some(word) => Some(*word),
        }
    }

    /// Puts a word on top.
    pub fn push(&mut self, word: u64) -> Result<(), AllocError>
        ensures { OnOk result (self.new ≡ word ∷ self.old) }
    {
        self.words.push(word)?;
        Ok(())
    }

    /// Takes the newest word off.
    pub fn drop_top(&mut self)
        ensures { self.new ≡ under_top self.old }
    {
        let _ = self.words.pop();
    }
}
