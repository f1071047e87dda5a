//! What the calls of a turn reply, and where the vector's words stand after them.
ghost use Rattle.std.specs.Prelude.{◌≡◌, IfOk};
ghost use Rattle.std.specs.List.{zip};
ghost use Rattle.std.specs.Option.{option_and_then};
ghost use Rattle.gr_lang.specs.Effects.{found};
ghost use Rattle.gr_vector.specs.Laws.{replies_from};
ghost use Rattle.gr_vector.specs.Parts.{part_of};
ghost use Rattle.gr_vector.specs.Plans as plans;

use gr_lang::{Op, Reply, Sequence, WaitingCall};
use gr_vector::Ends;
use std::alloc::{AllocError, Global};
use std::collections::BTreeMap;

/// Calls with their replies.
pub type Answers = Sequence<(WaitingCall, Reply)>;

/// The positions after a call. An error is a position that doesn't fit a word.
fn next(ends: Ends, op: Op) -> Result<Ends, AllocError>
    ensures { IfOk result (λ next. next ≡ plans.after op ends) }
{
    match op {
        Op::Push { .. } if ends.tail == u64::MAX => Err(AllocError),
        _ => Ok(ends.after(op)),
    }
}

/// The positions after calls, one after another. An error is a position that doesn't fit a word.
pub fn ends_after(calls: &[WaitingCall], first: Ends) -> Result<Ends, AllocError>
    ensures { IfOk result (λ last. last ≡ plans.ends_after calls.now first) }
{
    let mut ends = first;
    for call in calls {
        ends = next(ends, call.op)?;
    }
    Ok(ends)
}

/// What a call replies that takes a word from this position, if it takes one.
#[tactic(auto, using(gr_vector::proofs::Held::at_parts))]
fn reply(words: &BTreeMap<u64, u64>, position: Option<u64>) -> Reply
    ensures { result ≡ found (option_and_then (part_of words.now.entries) position) }
{
    match position {
        Some(position) => Reply::found(words.get(&position).copied()),
        None => Reply::found(None),
    }
}

/// Calls with their replies, by the words at the positions from which they take words.
pub fn replies(
    alloc: Global,
    calls: &[WaitingCall],
    first: Ends,
    words: &BTreeMap<u64, u64>,
) -> Result<Answers, AllocError>
    ensures { IfOk result (λ answers. answers ≡ zip calls.now
        (replies_from (part_of words.now.entries) (plans.taken_by calls.now first))) }
{
    let mut ends = first;
    let mut answers = Answers::new(alloc);
    for call in calls {
        answers.push((*call, reply(words, ends.taken(call.op))))?;
        ends = next(ends, call.op)?;
    }
    Ok(answers)
}
