//! Units of work, as they are read.
ghost use Rattle.std.specs.Prelude.{◌≡◌};
ghost use Rattle.gr_format.specs.Formats.{times};
ghost use Rattle.gr_format.specs.Readers.{Reads};
ghost use Rattle.gr_msg.specs.Parts as format;

use crate::message::{ScopeId, Unit};
use crate::parts::{above, any_word, core_number, scope_id, task_id};
use gr_format::{FormatError, byte, word};
use gr_lang::Words;
use gr_syntax::{MAX_PARAMS, MAX_TASKS};
use std::alloc::Global;

/// So many words.
fn words(alloc: Global, bytes: &[u8], count: u64) -> Result<(Words, &[u8]), FormatError>
    ensures { Reads (times count format.any_word) bytes.now result }
{
    let mut words = Words::new(alloc);
    let mut rest = bytes;
    'each: for _ in 0..count {
        let (word, behind) = any_word(rest)?;
        words.push(word)?;
        rest = behind;
    }
    Ok((words, rest))
}

/// The most arguments of a unit of this tag.
fn most_args(tag: u64) -> u64
    ensures { result ≡ format.most_args tag }
{
    if tag == 1 {
        MAX_PARAMS as u64
    } else {
        MAX_PARAMS as u64 - 1
    }
}

/// The end of a single task.
#[tactic(auto, using(crate::proofs::Steps::steps), unfolding(crate::specs::Parts::single))]
fn single(
    bytes: &[u8],
    target: u64,
    args: Words,
    scope: ScopeId,
    origin: u64,
) -> Result<(Unit, &[u8]), FormatError>
    ensures { Reads (format.single target args scope origin) bytes.now result }
{
    let (id, rest) = task_id(bytes)?;
    Ok((
        Unit::Single {
            target,
            args,
            scope,
            origin,
            id,
        },
        rest,
    ))
}

/// The end of a chunk.
#[tactic(auto, using(crate::proofs::Steps::steps), unfolding(crate::specs::Parts::chunk))]
fn chunk(
    bytes: &[u8],
    target: u64,
    args: Words,
    scope: ScopeId,
    origin: u64,
) -> Result<(Unit, &[u8]), FormatError>
    ensures { Reads (format.chunk target args scope origin) bytes.now result }
{
    let (owner, rest) = task_id(bytes)?;
    let (lo, rest) = any_word(rest)?;
    let (hi, rest) = above(rest, lo)?;
    let (grain, rest) = word(rest, 1, u64::MAX)?;
    Ok((
        Unit::Chunk {
            target,
            args,
            scope,
            origin,
            owner,
            lo,
            hi,
            grain,
        },
        rest,
    ))
}

/// The end of a unit of this tag.
#[tactic(auto, unfolding(crate::specs::Parts::unit_end))]
fn unit_end(
    bytes: &[u8],
    tag: u64,
    target: u64,
    args: Words,
    scope: ScopeId,
    origin: u64,
) -> Result<(Unit, &[u8]), FormatError>
    ensures { Reads (format.unit_end tag target args scope origin) bytes.now result }
{
    if tag == 1 {
        single(bytes, target, args, scope, origin)
    } else {
        chunk(bytes, target, args, scope, origin)
    }
}

/// A unit of work.
#[tactic(auto, using(crate::proofs::Steps::steps), unfolding(crate::specs::Parts::work_unit))]
pub fn work_unit(alloc: Global, bytes: &[u8]) -> Result<(Unit, &[u8]), FormatError>
    ensures { Reads format.work_unit bytes.now result }
{
    let (tag, rest) = byte(bytes, 1, 2)?;
    let (target, rest) = byte(rest, 0, MAX_TASKS as u64 - 1)?;
    let (count, rest) = byte(rest, 0, most_args(tag))?;
    let (args, rest) = words(alloc, rest, count)?;
    let (scope, rest) = scope_id(rest)?;
    let (origin, rest) = core_number(rest)?;
    let (unit, rest) = unit_end(rest, tag, target, args, scope, origin)?;
    Ok((unit, rest))
}
