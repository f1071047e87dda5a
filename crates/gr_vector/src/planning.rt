//! What a turn makes of the calls of its group.
ghost use Rattle.std.specs.Prelude.{◌≡◌, ◌+◌, ◌≤◌, ◌<◌, ◌^◌, ◌++◌, ◌∷◌, [], IfOk, OnOk, length};
ghost use Rattle.gr_vector.specs.declared.kind.Kind.TheVariants as kind;
ghost use Rattle.gr_vector.specs.Groups.{calls_of};
ghost use Rattle.gr_vector.specs.PlanWords.{Fit};
ghost use Rattle.gr_vector.specs.Plans.{placed, plan_from, plan_of, present, taken};

use crate::ends::Ends;
use crate::turn_plan::Plan;
use gr_lang::{Calls, Op, Pairs, WaitingCall, Words};
use std::alloc::{AllocError, Global};

/// Puts what a call puts last, if it puts a word.
fn add_put(puts: &mut Vec<(u64, u64)>, ends: Ends, op: Op) -> Result<(), AllocError>
    ensures { OnOk result (puts.new.items ≡ puts.old.items ++ present (placed op ends ∷ [])) }
{
    if let Some(put) = ends.placed(op) {
        puts.push(put)?;
    }
    Ok(())
}

/// Puts the position from which a call takes a word last, if it takes one.
fn add_get(gets: &mut Vec<u64>, ends: Ends, op: Op) -> Result<(), AllocError>
    ensures { OnOk result (gets.new.items ≡ gets.old.items ++ present (taken op ends ∷ [])) }
{
    if let Some(position) = ends.taken(op) {
        gets.push(position)?;
    }
    Ok(())
}

/// The plan of calls one after another, where the vector's words stand between these ends.
fn follow(alloc: Global, calls: &[WaitingCall], first: Ends) -> Result<Plan, AllocError>
    requires { Fit calls.now first }
    ensures { IfOk result (λ planned. planned ≡ plan_from calls.now first) }
{
    let mut ends = first;
    let mut puts = Vec::new(alloc);
    let mut gets = Vec::new(alloc);
    for call in calls {
        let next = ends.after(call.op);
        add_put(&mut puts, ends, call.op)?;
        add_get(&mut gets, ends, call.op)?;
        ends = next;
    }
    Ok(Plan {
        puts: Pairs::from_vec(puts),
        gets: Words::from_vec(gets),
        head: ends.head,
        tail: ends.tail,
    })
}

/// The plan of a group, where the vector's words stand from position head to below tail.
///
/// Words are pushed at `tail` and on. Pops take from the last position downwards and dequeues from `head`
/// upwards, while positions are left.
pub fn plan(alloc: Global, group: &Calls, head: u64, tail: u64) -> Result<Plan, AllocError>
    requires fits { tail + length (calls_of kind.Push group.now) < 2 ^ 64 }
    requires ends { head ≤ tail }
    ensures { IfOk result (λ planned. planned ≡ plan_of group.now head tail) }
{
    let calls = group.as_slice();
    follow(alloc, calls, Ends { head, tail })
}
