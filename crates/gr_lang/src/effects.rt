//! What one call does to a word, to what stands under one key, and what it replies there.
ghost use Rattle.std.specs.Prelude.{◌≡◌};
ghost use Rattle.gr_lang.specs.Expressions.{number_of};
ghost use Rattle.gr_lang.specs.Effects as spec;

use crate::action::{Effect, Op, Reply};

impl Reply {
    /// A reply of one word.
    pub fn one(word: u64) -> Reply
        ensures { result ≡ spec.one word }
    {
        Reply {
            first: word,
            second: 0,
        }
    }

    /// A reply that gives no word.
    pub fn nothing() -> Reply
        ensures { result ≡ spec.nothing }
    {
        Reply {
            first: 0,
            second: 0,
        }
    }

    /// A reply that says whether something is so: 1 or 0.
    pub fn whether(is_so: bool) -> Reply
        ensures { result ≡ spec.one (number_of is_so) }
    {
        Reply::one(is_so as u64)
    }

    /// A reply of 1 and a word, or of 0 and 0 where there is none.
    pub fn found(word: Option<u64>) -> Reply
        ensures { result ≡ spec.found word }
    {
        match word {
            Some(second) => Reply { first: 1, second },
            None => Reply::nothing(),
        }
    }
}

/// Two words made one by the reducer of this number: add (wrapping), min, max, or, and, xor, first, or for
/// 7 and more last.
pub fn reduced(reducer: u64, one: u64, other: u64) -> u64
    ensures { result ≡ spec.reduced reducer one other }
{
    match reducer {
        0 => one.wrapping_add(other),
        1 => one.min(other),
        2 => one.max(other),
        3 => one | other,
        4 => one & other,
        5 => one ^ other,
        6 => one,
        _ => other,
    }
}

impl Op {
    /// The word after this call on it.
    pub fn word_after(self, before: u64) -> u64
        ensures { result ≡ spec.word_after self before }
    {
        match self {
            Op::Write { word, .. } => word,
            Op::Add { word, .. } => before.wrapping_add(word),
            Op::Cas { old, new, .. } => if before == old { new } else { before },
            Op::Reduce { reducer, word, .. } => reduced(reducer, before, word),
            _ => before,
        }
    }

    /// What this call on a word replies of the word before: that word, but for a write no word.
    pub fn word_reply(self, before: u64) -> Reply
        ensures { result ≡ spec.word_reply self before }
    {
        match self {
            Op::Write { .. } => Reply::nothing(),
            _ => Reply::one(before),
        }
    }

    /// What this call makes of what stands under its key, and a reduce of its word.
    pub fn effect(self) -> Effect
        ensures { result ≡ spec.effect_of self }
    {
        match self {
            Op::Insert { .. } => Effect::Present { word: 0 },
            Op::Put { word, .. } => Effect::Present { word },
            Op::Remove { .. } | Op::Erase { .. } => Effect::Absent,
            Op::Merge { reducer, word, .. } | Op::Reduce { reducer, word, .. } => Effect::Fold {
                reducer,
                word,
            },
            _ => Effect::Keep,
        }
    }

    /// What this call replies of what stood under its key, and a reduce of its word.
    pub fn key_reply(self, before: Option<u64>) -> Reply
        ensures { result ≡ spec.key_reply self before }
    {
        match self {
            Op::Insert { .. } | Op::Put { .. } | Op::Merge { .. } => Reply::whether(
                before.is_none(),
            ),
            Op::Remove { .. } | Op::Has { .. } | Op::Erase { .. } => Reply::whether(
                before.is_some(),
            ),
            Op::Get { .. } => Reply::found(before),
            Op::Reduce { .. } => Reply::one(before.unwrap_or(0)),
            _ => Reply::nothing(),
        }
    }
}
