//! The calls of a row.
ghost use Rattle.std.specs.Prelude.{◌≤◌};

use gr_syntax::MAX_WORDS;
use serde_json::Value;
use std::alloc::{AllocError, Global};

/// A call as a row writes it: words and numbers, with spaces between them.
#[derive(Drop)]
pub struct Call {
    words: Vec<String>,
    numbers: Vec<u64>,
}

impl Call {
    fn read(alloc: Global, text: &str) -> Result<Call, AllocError> {
        let mut words = Vec::new(alloc);
        let mut numbers = Vec::new(alloc);
        for part in text.split_whitespace() {
            match part.parse::<u64>() {
                Ok(number) => numbers.push(number)?,
                Err(_) => words.push(String::from_str(alloc, part)?)?,
            }
        }
        Ok(Call { words, numbers })
    }

    /// Its word at a place, the first of which is its name; empty where there is none.
    pub fn word(&self, at: usize) -> &str {
        match self.words.get(at) {
            Some(word) => word.as_str(),
            None => "",
        }
    }

    /// Its number at a place; 0 where there is none.
    pub fn number(&self, at: usize) -> u64 {
        self.numbers.get(at).copied().unwrap_or(0)
    }

    /// Its numbers.
    pub fn numbers(&self) -> &[u64] {
        self.numbers.as_slice()
    }
}

/// The calls of a row, `do`, as texts; none where it has no such list.
pub fn lines_of<'a>(alloc: Global, row: &'a Value) -> Result<Option<Vec<&'a str>>, AllocError> {
    let Some(items) = row.get("do").and_then(Value::as_array) else {
        return Ok(None);
    };
    let mut lines = Vec::new(alloc);
    for item in items.as_slice() {
        let Some(line) = item.as_str() else {
            return Ok(None);
        };
        lines.push(line)?;
    }
    Ok(Some(lines))
}

/// The calls of a row; none where it has no list of them.
pub fn calls_of(alloc: Global, row: &Value) -> Result<Option<Vec<Call>>, AllocError> {
    let Some(lines) = lines_of(alloc, row)? else {
        return Ok(None);
    };
    let mut calls = Vec::new(alloc);
    for line in lines.as_slice() {
        calls.push(Call::read(alloc, line)?)?;
    }
    Ok(Some(calls))
}

/// The number of this name in a row, or the greatest number of words of a program, whichever is less; 0
/// where there is none.
pub fn size_in(row: &Value, name: &str) -> u64
    ensures { result ≤ MAX_WORDS }
{
    row.get(name)
        .and_then(Value::as_u64)
        .unwrap_or(0)
        .min(MAX_WORDS)
}

/// What is answered where there is no call of that name.
pub fn no_such_call(alloc: Global) -> Result<String, AllocError> {
    String::from_str(alloc, "no such call")
}
