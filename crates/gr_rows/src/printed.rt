//! Programs that are printed and read back.
use gr_parse::parse;
use gr_print::print_program;
use gr_text::tokens;
use std::alloc::{AllocError, Global};

/// The text as which the program of a text is printed, where the text is in the grammar.
fn printed(alloc: Global, text: &[u8]) -> Result<Option<Vec<u8>>, AllocError> {
    let read = tokens(alloc, text);
    let Ok(tokens) = read else {
        return Ok(None);
    };
    let parsed = parse(alloc, text, &tokens);
    let Ok(program) = parsed else {
        return Ok(None);
    };
    Ok(Some(print_program(alloc, &program)?))
}

/// Whether the program that is read back from the printed text is printed as the same text.
pub fn is_read_back(alloc: Global, text: &[u8]) -> Result<bool, AllocError> {
    let Some(once) = printed(alloc, text)? else {
        return Ok(false);
    };
    match printed(alloc, once.as_slice())? {
        Some(again) => Ok(again.as_slice() == once.as_slice()),
        None => Ok(false),
    }
}
