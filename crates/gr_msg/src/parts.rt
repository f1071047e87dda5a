//! The parts of messages, as they are read.
ghost use Rattle.std.specs.Prelude.{◌≡◌};
ghost use Rattle.gr_format.specs.Readers.{Reads};
ghost use Rattle.gr_msg.specs.Parts as format;

use crate::message::ScopeId;
use gr_format::{FormatError, byte, word};
use gr_lang::{Effect, TaskId};
use gr_syntax::{HEAP, MAX_CORES, MAX_OBJECTS};

/// Any word.
pub fn any_word(bytes: &[u8]) -> Result<(u64, &[u8]), FormatError>
    ensures { Reads format.any_word bytes.now result }
{
    word(bytes, 0, u64::MAX)
}

/// A word that is 0 where it isn't used.
pub fn used(bytes: &[u8], is_used: bool) -> Result<(u64, &[u8]), FormatError>
    ensures { Reads (format.used is_used) bytes.now result }
{
    let most = if is_used { u64::MAX } else { 0 };
    word(bytes, 0, most)
}

/// The number of a core.
pub fn core_number(bytes: &[u8]) -> Result<(u64, &[u8]), FormatError>
    ensures { Reads format.core bytes.now result }
{
    byte(bytes, 0, MAX_CORES - 1)
}

/// The number of a vector.
pub fn vector(bytes: &[u8]) -> Result<(u64, &[u8]), FormatError>
    ensures { Reads format.vector bytes.now result }
{
    byte(bytes, 0, MAX_OBJECTS as u64 - 1)
}

/// Whether an object or the heap has this number.
fn is_object(number: u64) -> bool
    ensures { result ≡ format.is_object number }
{
    number < MAX_OBJECTS as u64 || number == HEAP
}

/// The number of an object, or of the heap.
#[tactic(auto, using(crate::proofs::Steps::objects))]
pub fn object(bytes: &[u8]) -> Result<(u64, &[u8]), FormatError>
    ensures { Reads format.object bytes.now result }
{
    let (number, rest) = byte(bytes, 0, HEAP)?;
    if is_object(number) {
        Ok((number, rest))
    } else {
        Err(FormatError::Fault { left: bytes.len() })
    }
}

/// A word that is greater than this one.
#[tactic(auto, using(crate::proofs::Steps::greater))]
pub fn above(bytes: &[u8], least: u64) -> Result<(u64, &[u8]), FormatError>
    ensures { Reads (format.above least) bytes.now result }
{
    let (number, rest) = any_word(bytes)?;
    if least < number {
        Ok((number, rest))
    } else {
        Err(FormatError::Fault { left: bytes.len() })
    }
}

/// The name of a task.
#[tactic(auto, using(crate::proofs::Steps::steps), unfolding(crate::specs::Parts::task_id))]
pub fn task_id(bytes: &[u8]) -> Result<(TaskId, &[u8]), FormatError>
    ensures { Reads format.task_id bytes.now result }
{
    let (core, rest) = core_number(bytes)?;
    let (number, rest) = any_word(rest)?;
    Ok((TaskId { core, number }, rest))
}

/// The name of a scope.
#[tactic(auto, using(crate::proofs::Steps::steps), unfolding(crate::specs::Parts::scope_id))]
pub fn scope_id(bytes: &[u8]) -> Result<(ScopeId, &[u8]), FormatError>
    ensures { Reads format.scope_id bytes.now result }
{
    let (core, rest) = core_number(bytes)?;
    let (number, rest) = any_word(rest)?;
    Ok((ScopeId { core, number }, rest))
}

/// The word, where the flag is 1.
fn flagged(flag: u64, word: u64) -> Option<u64>
    ensures { result ≡ format.flagged flag word }
{
    if flag == 1 { Some(word) } else { None }
}

/// A flag, and the word that stands behind it where it is 1.
#[tactic(auto, using(crate::proofs::Steps::steps), unfolding(crate::specs::Parts::optional))]
pub fn optional(bytes: &[u8]) -> Result<(Option<u64>, &[u8]), FormatError>
    ensures { Reads format.optional bytes.now result }
{
    let (flag, rest) = byte(bytes, 0, 1)?;
    let (found, rest) = used(rest, flag == 1)?;
    Ok((flagged(flag, found), rest))
}

/// The effect of this tag.
fn effect_of(tag: u64, reducer: u64, word: u64) -> Effect
    ensures { result ≡ format.effect_of tag reducer word }
{
    match tag {
        0 => Effect::Keep,
        1 => Effect::Present { word },
        2 => Effect::Absent,
        _ => Effect::Fold { reducer, word },
    }
}

/// The greatest reducer of an effect of this tag.
fn last_reducer(tag: u64) -> u64
    ensures { result ≡ format.last_reducer tag }
{
    if tag == 3 { 7 } else { 0 }
}

/// An effect.
#[tactic(auto, using(crate::proofs::Steps::steps), unfolding(crate::specs::Parts::an_effect))]
pub fn effect(bytes: &[u8]) -> Result<(Effect, &[u8]), FormatError>
    ensures { Reads format.an_effect bytes.now result }
{
    let (tag, rest) = byte(bytes, 0, 3)?;
    let (reducer, rest) = byte(rest, 0, last_reducer(tag))?;
    let (word, rest) = used(rest, tag == 1 || tag == 3)?;
    Ok((effect_of(tag, reducer, word), rest))
}
