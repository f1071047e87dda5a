//! How the words are dealt to the cores.
ghost use Rattle.std.specs.Prelude.{◌≡◌, ◌<◌, IfOk, IsOk, ◌↔◌};
ghost use Rattle.gr_addr.specs.Dealing.{home_of, linear_of, place_of, share_of};
ghost use Rattle.gr_addr.specs.Layouts.{IsLayout};

use gr_syntax::{MAX_CORES, MAX_WORDS};
use thiserror::Error;

/// The most words of a block.
pub const MAX_BLOCK: u64 = 4096;

/// There is no layout of these numbers.
#[derive(Clone, Copy, Debug, PartialEq, Eq, Error)]
#[error("bad layout")]
pub struct BadLayout;

/// Blocks of words, dealt to the cores in turn.
#[derive(Clone, Copy)]
pub struct Layout {
    /// The number of cores, 1 to 16.
    pub cores: u64,
    /// The words of a block, 1 to 4096.
    pub block: u64,
    /// All words, at most 2^24.
    pub words: u64,
    ghost is_layout: { IsLayout cores block words },
}

impl Layout {
    /// The layout of so many words over so many cores in blocks of so many words; `BadLayout` where one of the
    /// three is outside its range.
    pub fn new(cores: u64, block: u64, words: u64) -> Result<Layout, BadLayout>
        ensures ok { IsOk result ↔ IsLayout cores block words }
        ensures cores { IfOk result (λ layout. layout.cores ≡ cores) }
        ensures block { IfOk result (λ layout. layout.block ≡ block) }
        ensures words { IfOk result (λ layout. layout.words ≡ words) }
    {
        if cores == 0 || cores > MAX_CORES || block == 0 || block > MAX_BLOCK || words > MAX_WORDS {
            return Err(BadLayout);
        }
        Ok(Layout {
            cores,
            block,
            words,
        })
    }

    /// The core at which the word of an address lies.
    pub fn home(&self, at: u64) -> u64
        ensures value { result ≡ home_of self.now.cores self.now.block at }
        ensures core { result < self.now.cores }
    {
        at / self.block % self.cores
    }

    /// The place of the word of an address among the words of its core.
    pub fn place(&self, at: u64) -> u64
        ensures { result ≡ place_of self.now.cores self.now.block at }
    {
        at / (self.block * self.cores) * self.block + at % self.block
    }

    /// The address of the word at a place of a core.
    pub fn linear(&self, core: u64, place: u64) -> u64
        requires core { core < self.now.cores }
        requires held { place < share_of self.now.cores self.now.block self.now.words core }
        ensures value { result ≡ linear_of self.now.cores self.now.block core place }
        ensures within { result < self.now.words }
    {
        (place / self.block * self.cores + core) * self.block + place % self.block
    }

    /// How many of the words lie at a core; their places are the numbers below that.
    pub fn share(&self, core: u64) -> u64
        requires { core < self.now.cores }
        ensures { result ≡ share_of self.now.cores self.now.block self.now.words core }
    {
        let round = self.block * self.cores;
        let rest = (self.words % round).saturating_sub(core * self.block);
        self.words / round * self.block + rest.min(self.block)
    }
}
