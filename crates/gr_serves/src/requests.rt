//! Calls on words and on the heap's blocks, and prints, that are requested; and the replies to
ghost use Rattle.std.specs.Prelude.{◌≡◌, OnOk, Some};
ghost use Rattle.gr_lang.specs.Objects.{start_in};
ghost use Rattle.gr_machine.specs.Requests.{allocated, answered, freed, made_at_zero, replied};
ghost use Rattle.gr_machine.specs.Requests.{requested, word_call, word_made, word_requested};
ghost use Rattle.gr_courses.specs.Seen.{does_to};
ghost use Rattle.gr_state.specs.StateView.{seen_of};
ghost use Rattle.gr_serves.specs.Heaps.{KnowsHeap};

use gr_lang::{Entry, Op, Reply, TaskId};
use gr_machine::Mark;
use gr_msg::Msg;
use gr_objects::named_at;
use gr_state::State;
use std::alloc::AllocError;

/// A task that requests a call: its core, its slot there and its name.
#[derive(Clone, Copy)]
pub struct Caller {
    pub core: u64,
    pub slot: u64,
    pub id: TaskId,
}

/// The call is made for the task: the reply is sent back, and the call marked with it.
fn answer(state: &mut State, caller: Caller, call: Op, reply: Reply) -> Result<(), AllocError>
    ensures { OnOk result (let s = seen_of state.old in seen_of state.new ≡ does_to s
        (Some (answered s.core.body caller.core caller.slot caller.id call reply))) }
{
    state.mark(Mark::Entry {
        entry: Entry::Call {
            task: caller.id,
            op: call,
            reply,
        },
    })?;
    state.send(
        caller.core,
        Msg::Reply {
            slot: caller.slot,
            id: caller.id,
            first: reply.first,
            second: reply.second,
        },
    )
}

/// The call of a request on a word.
fn word_call(operation: u64, named: (u64, u64), y: u64, z: u64) -> Op
    ensures { result ≡ word_call operation named y z }
{
    let (object, place) = named;
    match operation {
        1 => Op::Read { object, place },
        2 => Op::Write {
            object,
            place,
            word: y,
        },
        3 => Op::Add {
            object,
            place,
            word: y,
        },
        _ => Op::Cas {
            object,
            place,
            old: y,
            new: z,
        },
    }
}

/// The call on the word at a place of this core, where there is one.
fn make(state: &mut State, caller: Caller, place: u64, call: Op) -> Result<(), AllocError>
    ensures { OnOk result (let s = seen_of state.old in seen_of state.new ≡ does_to s
        (word_made s.core.body caller.core caller.slot caller.id place call
        (s.core.body.words.segment place))) }
{
    let Some(word) = state.store.word(place) else {
        return Ok(());
    };
    state.store.set_word(place, call.word_after(word));
    answer(state, caller, call, call.word_reply(word))
}

/// The call of a request on the word of an address whose home is this core.
fn request_word(
    state: &mut State,
    caller: Caller,
    operation: u64,
    at: u64,
    y: u64,
    z: u64,
) -> Result<(), AllocError>
    ensures { OnOk result (let s = seen_of state.old in seen_of state.new ≡ does_to s
        (word_requested s.machine s.core.body caller.core caller.slot caller.id operation at y z)) }
{
    let place = state.posts.place(at);
    let call = word_call(operation, named_at(state.slots.code(), at), y, z);
    make(state, caller, place, call)
}

/// A block of so many words is live at the least start where it fits, or there is no such start.
fn alloc(state: &mut State, caller: Caller, count: u64) -> Result<(), AllocError>
    ensures { OnOk result (let s = seen_of state.old in seen_of state.new ≡ does_to s
        (Some (allocated s.core.body caller.core caller.slot caller.id count
        (start_in s.heap s.core.body.words.blocks count)))) }
{
    let start = state.store.alloc(count)?;
    match start {
        Some(at) => answer(state, caller, Op::Alloc { count }, Reply::one(at)),
        None => answer(state, caller, Op::Alloc { count }, Reply::one(u64::MAX)),
    }
}

/// No block starts at the address from now on.
fn free(state: &mut State, caller: Caller, at: u64) -> Result<(), AllocError>
    ensures { OnOk result (let s = seen_of state.old in seen_of state.new ≡ does_to s
        (Some (freed s.core.body caller.core caller.slot caller.id at))) }
{
    let was = state.store.free(at)?;
    answer(state, caller, Op::Free { place: at }, Reply::whether(was))
}

/// What core 0 alone is asked: 5 alloc, 6 free, 7 print.
fn request_at_zero(
    state: &mut State,
    caller: Caller,
    operation: u64,
    x: u64,
) -> Result<(), AllocError>
    requires { (seen_of state.old).heap ≡ (seen_of state.old).machine.code.objects.heap }
    ensures { OnOk result (let s = seen_of state.old in seen_of state.new ≡ does_to s
        (made_at_zero s.machine s.core.body caller.core caller.slot caller.id operation x)) }
{
    match operation {
        5 => alloc(state, caller, x),
        6 => free(state, caller, x),
        7 => answer(state, caller, Op::Print { word: x }, Reply::nothing()),
        _ => Ok(()),
    }
}

/// 1 read, 2 write, 3 add and 4 cas at the word's home; 5 alloc, 6 free and 7 print at core 0.
pub fn request(
    state: &mut State,
    caller: Caller,
    operation: u64,
    x: u64,
    y: u64,
    z: u64,
) -> Result<(), AllocError>
    requires { KnowsHeap (seen_of state.old) }
    ensures { OnOk result (let s = seen_of state.old in seen_of state.new ≡ does_to s
        (requested s.machine s.me s.core.body caller.core caller.slot caller.id operation x y z)) }
{
    if operation < 5 {
        if 0 < operation && state.posts.home(x) == state.posts.me() {
            return request_word(state, caller, operation, x, y, z);
        }
        return Ok(());
    }
    if state.posts.me() == 0 {
        return request_at_zero(state, caller, operation, x);
    }
    Ok(())
}

/// A reply is taken only by a slot whose task has this name, and waits for one.
pub fn reply(state: &mut State, slot: u64, id: TaskId, reply: Reply) -> Result<(), AllocError>
    ensures { OnOk result (let s = seen_of state.old in seen_of state.new ≡ does_to s
        (replied s.machine s.core.body slot id reply)) }
{
    if state.slots.awaits_reply(slot, id) {
        return state.resume(slot, reply);
    }
    Ok(())
}
