//! What several cores hold, put together by rising key. Where two hold something under one key, the first counts.
ghost use Rattle.std.specs.Prelude.{◌≡◌, ◌∷◌, [], ℕ, IfOk, OnOk};
ghost use Rattle.std.specs.BTreeMap.{IsOrdered};
ghost use Rattle.std.specs.Option.{option_or};
ghost use Rattle.std.specs.Ordering.{nat_cmp};
ghost use Rattle.gr_vector.specs.Parts.{part_of};

use gr_lang::Pairs;
use std::alloc::{AllocError, Global};
use std::collections::BTreeMap;

/// Puts a word under a key, unless one is there. An error is want of memory.
#[tactic(auto, using(crate::proofs::Merges::notes))]
fn note(words: &mut BTreeMap<u64, u64>, key: u64, word: u64) -> Result<(), AllocError>
    ensures { OnOk result ((at : ℕ) → part_of words.new.entries at
        ≡ option_or (part_of words.old.entries at) (part_of ((key, word) ∷ []) at)) }
{
    if words.contains_key(&key) {
        return Ok(());
    }
    match words.insert(key, word) {
        Ok(_) => Ok(()),
        Err(_) => Err(AllocError),
    }
}

/// Puts words under keys, unless some are there. An error is want of memory.
pub fn note_all(words: &mut BTreeMap<u64, u64>, pairs: &[(u64, u64)]) -> Result<(), AllocError>
    ensures { OnOk result ((at : ℕ) → part_of words.new.entries at
        ≡ option_or (part_of words.old.entries at) (part_of pairs.now at)) }
{
    for (key, word) in pairs {
        note(words, *key, *word)?;
    }
    Ok(())
}

/// All keys with their words, by rising key. An error is want of memory.
pub fn pairs_of(alloc: Global, words: &BTreeMap<u64, u64>) -> Result<Pairs, AllocError>
    ensures listed { IfOk result (λ pairs. pairs ≡ words.now.entries) }
    ensures ordered { IsOrdered nat_cmp words.now }
{
    let mut pairs = Vec::with_capacity(alloc, words.len())?;
    for (key, word) in words {
        pairs.push((*key, *word))?;
    }
    Ok(Pairs::from_vec(pairs))
}
