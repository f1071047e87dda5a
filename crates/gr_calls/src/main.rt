//! Makes the direct calls of the rows of standard input, one JSON object a line, and writes how many of the
//! rows were answered as they say, after a line for each that wasn't.
//!
//! A row names what is called, has what that takes, and says the answers that are due, each as a text. What
//! it may call stands in a module for each crate, which says what such a row has.
#![tactic(auto)]

mod action_text;
mod alloc_rows;
mod call;
mod check_rows;
mod cli_rows;
mod code_rows;
mod memory_rows;
mod packet_rows;
mod task_rows;
mod text_rows;

use serde_json::Value;
use std::alloc::{AllocError, Global};
use std::io::{BufRead, BufReader};

/// What the calls of a row answer; none where it is no row of a call that there is.
fn answers(alloc: Global, row: &Value) -> Result<Option<Vec<String>>, AllocError> {
    match row.get("call").and_then(Value::as_str) {
        Some("blocks") => alloc_rows::blocks(alloc, row),
        Some("memory") => memory_rows::memory(alloc, row),
        Some("keys") => memory_rows::keys(alloc, row),
        Some("checks") => check_rows::checks(alloc, row),
        Some("code") => code_rows::code(alloc, row),
        Some("tasks") => task_rows::tasks(alloc, row),
        Some("options") => cli_rows::options(alloc, row),
        Some("packets") => packet_rows::packets(alloc, row),
        Some("tokens") => text_rows::tokens(alloc, row),
        Some("places") => text_rows::places(alloc, row),
        _ => Ok(None),
    }
}

/// Whether these are the answers that are due, in their order.
fn are_due(answers: &[String], due: &[Value]) -> bool {
    answers.len() == due.len()
        && answers
            .iter()
            .zip(due)
            .all(|(answer, due)| due.as_str() == Some(answer.as_str()))
}

/// Whether the calls of a row answer as it says.
fn agrees(alloc: Global, row: &Value) -> Result<bool, AllocError> {
    let Some(due) = row.get("answers").and_then(Value::as_array) else {
        return Ok(false);
    };
    match answers(alloc, row)? {
        Some(answers) => Ok(are_due(answers.as_slice(), due.as_slice())),
        None => Ok(false),
    }
}

fn main(rt: HostRuntime) -> anyhow::Result<()> {
    let alloc = rt.alloc();
    let input = BufReader::new(alloc, rt.stdin())?;
    let mut agreed = 0u64;
    let mut made = 0u64;
    for line in input.lines(alloc) {
        let line = line?;
        let row = Value::from_str(alloc, line.as_str())?;
        made = made.saturating_add(1);
        if agrees(alloc, &row)? {
            agreed = agreed.saturating_add(1);
        } else {
            println!(rt; "not as it says: {line}")?;
        }
    }
    println!(rt; "{agreed} of {made} rows agree")?;
    Ok(())
}
