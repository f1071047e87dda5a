//! The words of one core.
ghost use Rattle.std.specs.Prelude.{◌≡◌, ◌<◌, true, IfOk, Some, is_some, length};
ghost use Rattle.gr_view.specs.Places.{put};
ghost use Rattle.gr_addr.specs.Dealing.{opening_words};
ghost use Rattle.gr_addr.specs.Segments.{words_of};
ghost use Rattle.gr_addr.specs.WordCalls.{stored};

use crate::layout::Layout;
use crate::word::WordOp;
use std::alloc::{AllocError, Global};
use std::marker::Model;

/// The words of the shared memory that lie at one core, by their places there.
#[derive(Drop)]
pub struct Segment {
    words: Vec<u64>,
}

impl Model for Segment {
    ghost use Rattle.std.specs.Prelude.{List, ℕ};

    ghost Value = { List ℕ };

    ghost view = { λ s. s.words.items };
}

impl Segment {
    /// The words of a core in a layout, all 0.
    #[tactic(auto, using(crate::proofs::Words::at_words))]
    pub fn new(alloc: Global, layout: &Layout, core: u64) -> Result<Segment, AllocError>
        requires { core < layout.now.cores }
        ensures { let l = layout.now in IfOk result (λ segment. words_of segment
            ≡ opening_words l.cores l.block l.words core) }
    {
        let words = vec![in alloc; 0; layout.share(core) as usize]?;
        Ok(Segment { words })
    }

    /// Whether there is a word at this place.
    #[tactic(auto, using(crate::proofs::Words::at_words))]
    pub fn holds(&self, place: u64) -> bool
        ensures { result ≡ is_some (words_of self.now place) }
    {
        self.words.get(place as usize).is_some()
    }

    /// The word at a place.
    pub fn get(&self, place: u64) -> u64
        requires { is_some (words_of self.now place) ≡ true }
        ensures { words_of self.now place ≡ Some result }
    {
        word_at(&self.words, place as usize)
    }

    /// Makes an operation on the word at a place, and answers the word before. It takes no memory.
    pub fn apply(&mut self, op: WordOp, place: u64) -> u64
        requires { is_some (words_of self.old place) ≡ true }
        ensures before { words_of self.old place ≡ Some result }
        ensures after { words_of self.new ≡ put (words_of self.old) place (Some (stored op result)) }
    {
        change(&mut self.words, op, place as usize)
    }
}

/// The word at a place of a list.
#[tactic(auto, using(crate::proofs::Words::at_words))]
fn word_at(words: &[u64], place: usize) -> u64
    requires { is_some (words_of words.now place) ≡ true }
    ensures { words_of words.now place ≡ Some result }
{
    words[place]
}

/// Makes an operation on the word at a place of a list, and answers the word before.
#[tactic(auto, using(crate::proofs::Words::at_words))]
fn change(words: &mut [u64], op: WordOp, place: usize) -> u64
    requires { is_some (words_of words.old place) ≡ true }
    ensures before { words_of words.old place ≡ Some result }
    ensures after { words_of words.new ≡ put (words_of words.old) place (Some (stored op result)) }
{
    let before = words[place];
    words[place] = op.stored(before);
    before
}
