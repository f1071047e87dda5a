//! Rows of plain memories. A row `memory` has an array of `array` words, a set, a map, a vector, and behind the
//! array a heap of `heap` words. Its calls name the object, as `write array 1 7`, and the reducer before it,
//! as `merge add map 3 4`. An answer is the two words of the reply. A row `keys` has a set of words.
ghost use Rattle.std.specs.Prelude.{◌≤◌, All, IfOk};
ghost use Rattle.gr_memory.specs.Ranges.{LiesIn};

use crate::call::{Call, calls_of, no_such_call, size_in};
use gr_accept::{operation_of, reducer_of};
use gr_lang::{Op, Reply, op_of};
use gr_memory::{Keys, Memory, Thing};
use gr_syntax::{HEAP, MAX_WORDS};
use serde_json::Value;
use std::alloc::{AllocError, Global};

/// The number of an object. There is no object with the number of any other name.
fn object_of(name: &str) -> u64 {
    match name {
        "array" => 0,
        "set" => 1,
        "map" => 2,
        "vector" => 3,
        "heap" => HEAP,
        _ => 4,
    }
}

/// The operation that a call spells.
fn op_in(call: &Call) -> Option<Op> {
    let name = call.word(0);
    if name == "print" {
        return Some(Op::Print {
            word: call.number(0),
        });
    }
    let operation = operation_of(name.as_bytes())?;
    if operation.takes_reducer() {
        let reducer = reducer_of(call.word(1).as_bytes())?;
        Some(op_of(operation, object_of(call.word(2)), reducer, call.numbers()))
    } else {
        Some(op_of(operation, object_of(call.word(1)), 0, call.numbers()))
    }
}

fn things(alloc: Global, array: u64, total: u64) -> Result<Vec<Thing>, AllocError>
    requires { array ≤ total }
    ensures { IfOk result (λ things. All (LiesIn total) things.items) }
{
    let mut things = Vec::new(alloc);
    things.push(Thing::array(0, array))?;
    things.push(Thing::set(alloc))?;
    things.push(Thing::map(alloc))?;
    things.push(Thing::vector(alloc))?;
    Ok(things)
}

fn new_memory(alloc: Global, array: u64, heap: u64) -> Result<Memory, AllocError>
    requires array { array ≤ MAX_WORDS }
    requires heap { heap ≤ MAX_WORDS }
{
    let total = array + heap;
    let words = vec![in alloc; 0; total as usize]?;
    let things = things(alloc, array, total)?;
    Memory::new(alloc, words, things, array, heap)
}

fn reply_text(alloc: Global, reply: Reply) -> Result<String, AllocError> {
    let first = reply.first;
    let second = reply.second;
    format!(in alloc; "{first} {second}")
}

/// What the calls of a memory answer.
pub fn memory(alloc: Global, row: &Value) -> Result<Option<Vec<String>>, AllocError> {
    let Some(calls) = calls_of(alloc, row)? else {
        return Ok(None);
    };
    let mut memory = new_memory(alloc, size_in(row, "array"), size_in(row, "heap"))?;
    let mut answers = Vec::new(alloc);
    for call in calls.as_slice() {
        match op_in(call) {
            Some(op) => {
                answers.push(reply_text(alloc, memory.reply(op))?)?;
                memory.apply(op)?;
            }
            None => answers.push(no_such_call(alloc)?)?,
        }
    }
    Ok(Some(answers))
}

fn key_answer(alloc: Global, keys: &mut Keys, call: &Call) -> Result<String, AllocError> {
    let key = call.number(0);
    match call.word(0) {
        "insert" => {
            keys.insert(key)?;
            String::from_str(alloc, "done")
        }
        "remove" => {
            keys.remove(key);
            String::from_str(alloc, "done")
        }
        "has" => keys.has(key).to_string(alloc),
        "len" => keys.len().to_string(alloc),
        _ => no_such_call(alloc),
    }
}

/// What the calls of a set of words answer.
pub fn keys(alloc: Global, row: &Value) -> Result<Option<Vec<String>>, AllocError> {
    let Some(calls) = calls_of(alloc, row)? else {
        return Ok(None);
    };
    let mut keys = Keys::new(alloc);
    let mut answers = Vec::new(alloc);
    for call in calls.as_slice() {
        answers.push(key_answer(alloc, &mut keys, call)?)?;
    }
    Ok(Some(answers))
}
