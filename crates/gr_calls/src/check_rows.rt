//! Rows of the checker. A row `checks` has a text, and is answered with `accepted` or with the refusal as it is
//! printed.
ghost use Rattle.std.specs.Prelude.{◌≡◌, IfOk, IfSome, true};
ghost use Rattle.gr_syntax.specs.Targets.{targets_fit};

use gr_accept::Accepted;
use gr_checker::check;
use gr_parse::parse;
use gr_syntax::Program;
use gr_text::tokens;
use serde_json::Value;
use std::alloc::{AllocError, Global};

/// The program that a text is, if it is one.
fn program_of(alloc: Global, text: &[u8]) -> Result<Option<Program>, AllocError>
    ensures { IfOk result (λ found. IfSome found (λ program. targets_fit program ≡ true)) }
{
    let read = tokens(alloc, text);
    let Ok(tokens) = read else {
        return Ok(None);
    };
    match parse(alloc, text, &tokens) {
        Ok(program) => Ok(Some(program)),
        Err(_) => Ok(None),
    }
}

/// The accepted program that a text is, if it is one.
pub fn accepted(alloc: Global, text: &[u8]) -> Result<Option<Accepted>, AllocError> {
    match program_of(alloc, text)? {
        Some(program) => Ok(check(alloc, program).ok()),
        None => Ok(None),
    }
}

/// What the checker says of the program that a text is, if it is one.
fn checked(alloc: Global, text: &[u8]) -> Result<Option<String>, AllocError> {
    let Some(program) = program_of(alloc, text)? else {
        return Ok(None);
    };
    let answer = match check(alloc, program) {
        Ok(_) => String::from_str(alloc, "accepted")?,
        Err(error) => format!(in alloc; "{error}")?,
    };
    Ok(Some(answer))
}

/// What the checker says of the text of a row.
pub fn checks(alloc: Global, row: &Value) -> Result<Option<Vec<String>>, AllocError> {
    let Some(text) = row.get("text").and_then(Value::as_str) else {
        return Ok(None);
    };
    let mut answers = Vec::new(alloc);
    if let Some(answer) = checked(alloc, text.as_bytes())? {
        answers.push(answer)?;
    }
    Ok(Some(answers))
}
