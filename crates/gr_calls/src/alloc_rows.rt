//! Rows of heaps. A row `blocks` has a heap of `words` words from the address `from` on.
use crate::call::{Call, calls_of, no_such_call, size_in};
use gr_alloc::Blocks;
use serde_json::Value;
use std::alloc::{AllocError, Global};

/// A place, or none.
fn place_text(alloc: Global, place: Option<u64>) -> Result<String, AllocError> {
    match place {
        Some(place) => format!(in alloc; "{place}"),
        None => String::from_str(alloc, "none"),
    }
}

fn answer(alloc: Global, blocks: &mut Blocks, call: &Call) -> Result<String, AllocError> {
    let number = call.number(0);
    match call.word(0) {
        "alloc" => place_text(alloc, blocks.alloc(number)),
        "start_for" => place_text(alloc, blocks.start_for(number)),
        "free" => blocks.free(number).to_string(alloc),
        "is_live" => blocks.is_live(number).to_string(alloc),
        "contains" => blocks.contains(number).to_string(alloc),
        _ => no_such_call(alloc),
    }
}

/// What the calls of a heap answer.
pub fn blocks(alloc: Global, row: &Value) -> Result<Option<Vec<String>>, AllocError> {
    let Some(calls) = calls_of(alloc, row)? else {
        return Ok(None);
    };
    let mut blocks = Blocks::new(alloc, size_in(row, "from"), size_in(row, "words"))?;
    let mut answers = Vec::new(alloc);
    for call in calls.as_slice() {
        answers.push(answer(alloc, &mut blocks, call)?)?;
    }
    Ok(Some(answers))
}
