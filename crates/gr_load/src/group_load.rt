//! A load of the calls on a vector.
ghost use Rattle.std.specs.Prelude.{◌≡◌};

use gr_lang::{Op, TaskId, WaitingCall};
use gr_vector::{VecCombiner, plan};
use std::alloc::{AllocError, Global};

fn waiting(slot: u64, op: Op) -> WaitingCall
    ensures { result.op ≡ op }
{
    WaitingCall {
        slot,
        id: TaskId {
            core: 0,
            number: slot,
        },
        op,
    }
}

/// How many words a group of two pushes, a pop and a dequeue puts, and how many it takes.
fn planned(alloc: Global, word: u64) -> Result<(usize, usize), AllocError> {
    let mut combiner = VecCombiner::new(alloc);
    combiner.join(waiting(0, Op::Push { object: 3, word }))?;
    combiner.join(waiting(1, Op::Pop { object: 3 }))?;
    combiner.join(waiting(2, Op::Push { object: 3, word }))?;
    combiner.join(waiting(3, Op::Dequeue { object: 3 }))?;
    let group = combiner.close(alloc)?;
    let planned = plan(alloc, &group, 0, 0)?;
    Ok((planned.puts.len(), planned.gets.len()))
}

/// So many groups of four calls are closed and planned.
pub fn groups(alloc: Global, count: u64) -> Result<String, AllocError> {
    let mut puts = 0usize;
    let mut gets = 0usize;
    for word in 0..count {
        let made = planned(alloc, word)?;
        puts = puts.wrapping_add(made.0);
        gets = gets.wrapping_add(made.1);
    }
    format!(in alloc; "{puts} puts, {gets} gets")
}
