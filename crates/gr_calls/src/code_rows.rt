//! Rows of code. A row `code` has the text of a program, which is lowered. Its calls ask for the number of `main`,
//! for the number of parameters of a task, for the shape of an object, for that of the heap, for the word at an
//! address as a run opens, and whether an object has a place.
use crate::call::{Call, calls_of, no_such_call};
use crate::check_rows::accepted;
use gr_code::{Code, Shape, lower};
use serde_json::Value;
use std::alloc::{AllocError, Global};

fn count_text(alloc: Global, count: Option<u64>) -> Result<String, AllocError> {
    match count {
        Some(count) => format!(in alloc; "{count}"),
        None => String::from_str(alloc, "none"),
    }
}

fn shape_text(alloc: Global, shape: Option<Shape>) -> Result<String, AllocError> {
    match shape {
        Some(Shape::Words { from, words }) => format!(in alloc; "{words} words from {from}"),
        Some(Shape::Set) => String::from_str(alloc, "set"),
        Some(Shape::Map) => String::from_str(alloc, "map"),
        Some(Shape::Vector) => String::from_str(alloc, "vector"),
        None => String::from_str(alloc, "none"),
    }
}

fn answer(alloc: Global, code: &Code, call: &Call) -> Result<String, AllocError> {
    let first = call.number(0);
    match call.word(0) {
        "main" => code.main().to_string(alloc),
        "params" => count_text(alloc, code.params(first)),
        "object" => shape_text(
            alloc,
            code.objects().as_slice().get(first as usize).copied(),
        ),
        "heap" => shape_text(alloc, Some(code.heap())),
        "opening" => code.opening(first).to_string(alloc),
        "has_place" => code.has_place(first, call.number(1)).to_string(alloc),
        _ => no_such_call(alloc),
    }
}

/// What is told of the code of a row's program.
pub fn code(alloc: Global, row: &Value) -> Result<Option<Vec<String>>, AllocError> {
    let Some(text) = row.get("text").and_then(Value::as_str) else {
        return Ok(None);
    };
    let Some(calls) = calls_of(alloc, row)? else {
        return Ok(None);
    };
    let Some(program) = accepted(alloc, text.as_bytes())? else {
        return Ok(None);
    };
    let code = lower(alloc, &program)?;
    let mut answers = Vec::new(alloc);
    for call in calls.as_slice() {
        answers.push(answer(alloc, &code, call)?)?;
    }
    Ok(Some(answers))
}
