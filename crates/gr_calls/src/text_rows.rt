//! Rows of texts. A row `tokens` has a text, as `text` or in hexadecimal as `hex`, and its answers are the
//! tokens: from which byte to before which one, line and column, and what it is; or else the one fault. Each
//! call of a row `places` is a number of bytes, and is answered with the line and column behind so many.
use crate::call::calls_of;
use gr_text::{TextError, Token, TokenKind, place};
use serde_json::Value;
use std::alloc::{AllocError, Global};

fn text_of(alloc: Global, row: &Value) -> Result<Option<Vec<u8>>, AllocError> {
    if let Some(text) = row.get("text").and_then(Value::as_str) {
        return Ok(Some(Vec::from_slice(alloc, text.as_bytes())?));
    }
    match row.get("hex").and_then(Value::as_str) {
        Some(digits) => Ok(hex::decode(alloc, digits).ok()),
        None => Ok(None),
    }
}

fn kind_text(alloc: Global, kind: TokenKind) -> Result<String, AllocError> {
    match kind {
        TokenKind::Name => String::from_str(alloc, "name"),
        TokenKind::Number { value } => format!(in alloc; "number {value}"),
        TokenKind::Keyword { word } => format!(in alloc; "keyword {}", word.text()),
        TokenKind::Sign { sign } => format!(in alloc; "sign {}", sign.text()),
        TokenKind::End => String::from_str(alloc, "end"),
    }
}

fn token_text(alloc: Global, token: &Token) -> Result<String, AllocError> {
    let kind = kind_text(alloc, token.kind)?;
    format!(in alloc;
        "{}..{} {}:{} {}",
        token.from,
        token.to,
        token.at.line,
        token.at.column,
        kind.as_str()
    )
}

fn fault_text(alloc: Global, fault: &TextError) -> Result<String, AllocError> {
    match fault {
        TextError::BadByte { at } => format!(in alloc; "bad byte at {at}"),
        TextError::NumberTooWide { at } => format!(in alloc; "number too wide at {at}"),
        TextError::NameTooLong { at } => format!(in alloc; "name too long at {at}"),
        TextError::OutOfMemory => Err(AllocError),
    }
}

/// The tokens of a text, or its fault.
pub fn tokens(alloc: Global, row: &Value) -> Result<Option<Vec<String>>, AllocError> {
    let Some(text) = text_of(alloc, row)? else {
        return Ok(None);
    };
    let mut answers = Vec::new(alloc);
    match gr_text::tokens(alloc, text.as_slice()) {
        Ok(tokens) => {
            for token in tokens.as_slice() {
                answers.push(token_text(alloc, token)?)?;
            }
        }
        Err(fault) => answers.push(fault_text(alloc, &fault)?)?,
    }
    Ok(Some(answers))
}

fn place_text(alloc: Global, text: &[u8], at: u64) -> Result<String, AllocError> {
    if at > text.len() as u64 {
        return String::from_str(alloc, "none");
    }
    let found = place(text, at);
    format!(in alloc; "{}:{}", found.line, found.column)
}

/// The places in a text behind so many bytes.
pub fn places(alloc: Global, row: &Value) -> Result<Option<Vec<String>>, AllocError> {
    let Some(text) = text_of(alloc, row)? else {
        return Ok(None);
    };
    let Some(calls) = calls_of(alloc, row)? else {
        return Ok(None);
    };
    let mut answers = Vec::new(alloc);
    for call in calls.as_slice() {
        answers.push(place_text(alloc, text.as_slice(), call.number(0))?)?;
    }
    Ok(Some(answers))
}
