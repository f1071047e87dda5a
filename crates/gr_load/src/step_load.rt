//! A load of pure steps of a task.
use gr_accept::Accepted;
use gr_checker::check;
use gr_code::lower;
use gr_lang::{Action, Op};
use gr_parse::parse;
use gr_task::TaskState;
use gr_text::tokens;
use std::alloc::{AllocError, Global};

/// A program whose main adds up the numbers below this one.
fn text(alloc: Global, count: u64) -> Result<String, AllocError> {
    let mut text = String::from_str(alloc, "task main() { let s = 0; let i = 0; while i < ")?;
    text.push_str(count.to_string(alloc)?.as_str())?;
    text.push_str(" { s = s + i; i = i + 1; } print s; }")?;
    Ok(text)
}

/// The accepted program of a text, if it is one.
fn accepted(alloc: Global, text: &[u8]) -> Result<Option<Accepted>, AllocError> {
    let read = tokens(alloc, text);
    let Ok(tokens) = read else {
        return Ok(None);
    };
    let parsed = parse(alloc, text, &tokens);
    let Ok(program) = parsed else {
        return Ok(None);
    };
    Ok(check(alloc, program).ok())
}

/// The word that main prints first, if it prints one.
fn printed(alloc: Global, program: &Accepted) -> Result<Option<u64>, AllocError> {
    let code = lower(alloc, program)?;
    let mut main = TaskState::start(alloc, &code, code.main(), &[])?;
    let action = main.run_to_action(alloc, &code, u64::MAX)?;
    match action {
        Action::Call {
            op: Op::Print { word },
        } => Ok(Some(word)),
        _ => Ok(None),
    }
}

/// A loop of so many turns is run, each a test and two assignments.
pub fn steps(alloc: Global, count: u64) -> Result<String, AllocError> {
    let text = text(alloc, count)?;
    let Some(program) = accepted(alloc, text.as_bytes())? else {
        return String::from_str(alloc, "no program");
    };
    match printed(alloc, &program)? {
        Some(word) => format!(in alloc; "print {word}"),
        None => String::from_str(alloc, "no print"),
    }
}
