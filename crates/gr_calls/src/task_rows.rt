//! Rows of tasks. A row `tasks` has the text of a program. Its first call, `start`, has the number of a task and
//! its arguments, and is answered with the numbers of its parameters and of all its locals. A call `next` runs the
//! task within so many pure steps to its next action, which is the answer, and then goes on after it with the two
//! words that follow; `stay` only runs it.
ghost use Rattle.gr_task.specs.States.{IsOver};

use crate::action_text::action_text;
use crate::call::{Call, calls_of, no_such_call};
use crate::check_rows::accepted;
use gr_code::{Code, lower};
use gr_lang::Reply;
use gr_task::TaskState;
use serde_json::Value;
use std::alloc::{AllocError, Global};

/// Runs the task to its next action, and goes on after it where the call says so.
fn answer(
    alloc: Global,
    code: &Code,
    task: &mut TaskState,
    call: &Call,
) -> Result<String, AllocError>
    requires { IsOver code.now task.old }
    ensures { IsOver code.now task.new }
{
    if call.word(0) != "next" && call.word(0) != "stay" {
        return no_such_call(alloc);
    }
    let action = task.run_to_action(alloc, code, call.number(0))?;
    let text = action_text(alloc, &action)?;
    if call.word(0) == "next" {
        task.resume(Reply {
            first: call.number(1),
            second: call.number(2),
        });
    }
    Ok(text)
}

/// The numbers of the parameters and of the locals of a task.
fn entry_text(alloc: Global, code: &Code, target: u64) -> Result<String, AllocError> {
    let entry = code.entry(target);
    format!(in alloc; "params {} locals {}", entry.params, entry.locals)
}

/// What a task answers to calls, of which the first starts it.
fn played(alloc: Global, code: &Code, calls: &[Call]) -> Result<Option<Vec<String>>, AllocError> {
    let Some((start, others)) = calls.split_first() else {
        return Ok(None);
    };
    let Some((target, args)) = start.numbers().split_first() else {
        return Ok(None);
    };
    let mut answers = Vec::new(alloc);
    answers.push(entry_text(alloc, code, *target)?)?;
    let mut task = TaskState::start(alloc, code, *target, args)?;
    for call in others {
        answers.push(answer(alloc, code, &mut task, call)?)?;
    }
    Ok(Some(answers))
}

/// The answers of a row of tasks.
pub fn tasks(alloc: Global, row: &Value) -> Result<Option<Vec<String>>, AllocError> {
    let Some(text) = row.get("text").and_then(Value::as_str) else {
        return Ok(None);
    };
    let Some(calls) = calls_of(alloc, row)? else {
        return Ok(None);
    };
    let Some(program) = accepted(alloc, text.as_bytes())? else {
        return Ok(None);
    };
    let code = lower(alloc, &program)?;
    played(alloc, &code, calls.as_slice())
}
