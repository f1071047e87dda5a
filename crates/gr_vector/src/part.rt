//! The words of a vector at one core.
ghost use Rattle.std.specs.Prelude.{◌≡◌, [], true, IfOk, None, OnErr, OnOk, Some, is_some};
ghost use Rattle.std.specs.List.Sorted.{IsStrictlySortedBy};
ghost use Rattle.std.specs.Ordering.{nat_cmp};
ghost use Rattle.std.specs.Map.{keys_of};
ghost use Rattle.gr_view.specs.Places.{put};
ghost use Rattle.gr_vector.specs.Parts.{part_of};

use gr_lang::Pairs;
use std::alloc::{AllocError, Global};
use std::collections::BTreeMap;
use std::marker::Model;

/// The words of a vector that are at one core, by their positions.
#[derive(Drop)]
pub struct VecPart {
    words: BTreeMap<u64, u64>,
}

impl Model for VecPart {
    ghost use Rattle.std.specs.Prelude.{List, ℕ};

    ghost Value = { List (ℕ × ℕ) };

    ghost view = { λ part. part.words.entries };
}

impl VecPart {
    /// No words. It takes no memory.
    pub fn new(alloc: Global) -> VecPart
        ensures { result ≡ [] }
    {
        VecPart {
            words: BTreeMap::new(alloc),
        }
    }

    /// Whether a word is held at this position.
    pub fn holds(&self, position: u64) -> bool
        ensures { result ≡ is_some (part_of self.now position) }
    {
        held_at(&self.words, position).is_some()
    }

    /// The word at this position, if one is held there.
    pub fn get(&self, position: u64) -> Option<u64>
        ensures { result ≡ part_of self.now position }
    {
        held_at(&self.words, position)
    }

    /// Puts a word at an empty position. Unchanged where there is no memory.
    pub fn put(&mut self, position: u64, word: u64) -> Result<(), AllocError>
        requires { part_of self.old position ≡ None }
        ensures ok { OnOk result (part_of self.new ≡ put (part_of self.old) position (Some word)) }
        ensures err { OnErr result (self.new ≡ self.old) }
    {
        put_at(&mut self.words, position, word)
    }

    /// Takes the word out of a position at which one is held. It takes no memory.
    pub fn take(&mut self, position: u64) -> u64
        requires { is_some (part_of self.old position) ≡ true }
        ensures word { part_of self.old position ≡ Some result }
        ensures part { part_of self.new ≡ put (part_of self.old) position None }
    {
        take_at(&mut self.words, position)
    }

    /// All positions with their words, by rising position.
    pub fn sorted(&self, alloc: Global) -> Result<Pairs, AllocError>
        ensures all { IfOk result (λ pairs. pairs ≡ self.now) }
        ensures rising { IfOk result (λ pairs. IsStrictlySortedBy nat_cmp (keys_of pairs)) }
    {
        pairs_of(alloc, &self.words)
    }
}

/// The word at a position, if one is held there.
#[tactic(auto, using(crate::proofs::Held::at_parts))]
fn held_at(words: &BTreeMap<u64, u64>, position: u64) -> Option<u64>
    ensures { result ≡ part_of words.now.entries position }
{
    words.get(&position).copied()
}

/// Puts a word at a position.
#[tactic(auto, using(crate::proofs::Held::at_parts))]
fn put_at(words: &mut BTreeMap<u64, u64>, position: u64, word: u64) -> Result<(), AllocError>
    ensures ok { OnOk result (part_of words.new.entries
        ≡ put (part_of words.old.entries) position (Some word)) }
    ensures err { OnErr result (words.new.entries ≡ words.old.entries) }
{
    words.insert(position, word)?;
    Ok(())
}

/// Takes the word out of a position at which one is held.
#[tactic(auto, using(crate::proofs::Held::at_parts))]
fn take_at(words: &mut BTreeMap<u64, u64>, position: u64) -> u64
    requires { is_some (part_of words.old.entries position) ≡ true }
    ensures word { part_of words.old.entries position ≡ Some result }
    ensures part { part_of words.new.entries ≡ put (part_of words.old.entries) position None }
{
    match words.remove(&position) {
        Some(word) => word,
        None => 0,
    }
}

/// All positions with their words, by rising position.
fn pairs_of(alloc: Global, words: &BTreeMap<u64, u64>) -> Result<Pairs, AllocError>
    ensures all { IfOk result (λ pairs. pairs ≡ words.now.entries) }
    ensures rising { IfOk result (λ pairs. IsStrictlySortedBy nat_cmp (keys_of pairs)) }
{
    let mut pairs = Vec::new(alloc);
    for (position, word) in words.iter() {
        pairs.push((*position, *word))?;
    }
    Ok(Pairs::from_vec(pairs))
}
