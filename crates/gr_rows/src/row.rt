//! A row: a call and what is due.
ghost use Rattle.std.specs.Prelude.{◌<◌};

use gr_io::{MemSink, MemSource};
use serde_json::Value;
use std::alloc::{AllocError, Global};

/// How many bytes a call may write.
const ROOM: usize = 1 << 16;

/// How many bytes one read gives and one write takes, where a row says nothing.
const PIECE: u64 = 4096;

/// A call of the program, and the status and output that are due.
#[derive(Drop)]
pub struct Row {
    pub words: Vec<String>,
    pub source: MemSource,
    pub sink: MemSink,
    pub status: u64,
    pub output: String,
}

fn words_of(alloc: Global, value: &Value) -> Result<Option<Vec<String>>, AllocError> {
    let Some(items) = value.get("words").and_then(Value::as_array) else {
        return Ok(None);
    };
    let mut words = Vec::new(alloc);
    for item in items.as_slice() {
        let Some(word) = item.as_str() else {
            return Ok(None);
        };
        words.push(String::from_str(alloc, word)?)?;
    }
    Ok(Some(words))
}

/// Adds a piece of text as often as it says.
fn add_piece(source: &mut Vec<u8>, piece: &Value) -> Result<bool, AllocError> {
    let Some(parts) = piece.as_array() else {
        return Ok(false);
    };
    match parts.as_slice() {
        [text, times] => match (text.as_str(), times.as_u64()) {
            (Some(text), Some(times)) => {
                for _ in 0..times {
                    source.extend_from_slice(text.as_bytes())?;
                }
                Ok(true)
            }
            _ => Ok(false),
        },
        _ => Ok(false),
    }
}

fn pieces_of(alloc: Global, pieces: &[Value]) -> Result<Option<Vec<u8>>, AllocError> {
    let mut source = Vec::new(alloc);
    for piece in pieces {
        if !add_piece(&mut source, piece)? {
            return Ok(None);
        }
    }
    Ok(Some(source))
}

fn source_of(alloc: Global, value: &Value) -> Result<Option<Vec<u8>>, AllocError> {
    if let Some(text) = value.get("text").and_then(Value::as_str) {
        return Ok(Some(Vec::from_slice(alloc, text.as_bytes())?));
    }
    if let Some(pieces) = value.get("pieces").and_then(Value::as_array) {
        return pieces_of(alloc, pieces.as_slice());
    }
    match value.get("hex").and_then(Value::as_str) {
        Some(text) => Ok(hex::decode(alloc, text).ok()),
        None => Ok(None),
    }
}

/// The number of this name, if the object has it, as a list.
fn numbers_of(alloc: Global, value: &Value, name: &str) -> Result<Vec<u64>, AllocError> {
    let mut numbers = Vec::new(alloc);
    if let Some(number) = value.get(name).and_then(Value::as_u64) {
        numbers.push(number)?;
    }
    Ok(numbers)
}

/// How many bytes, 1 or more, one read gives and one write takes.
fn piece_of(value: &Value) -> usize
    ensures { 0 < result }
{
    let piece = value.get("piece").and_then(Value::as_u64).unwrap_or(PIECE);
    piece.clamp(1, PIECE) as usize
}

/// The row that the object says, if it is one.
pub fn read_row(alloc: Global, value: &Value) -> Result<Option<Row>, AllocError> {
    let words = words_of(alloc, value)?;
    let source = source_of(alloc, value)?;
    let status = value.get("status").and_then(Value::as_u64);
    let output = value.get("output").and_then(Value::as_str);
    let piece = piece_of(value);
    let reads = numbers_of(alloc, value, "read")?;
    let writes = numbers_of(alloc, value, "write")?;
    match (words, source, status, output) {
        (Some(words), Some(source), Some(status), Some(output)) => Ok(Some(Row {
            words,
            source: MemSource::new(source, piece, reads),
            sink: MemSink::new(alloc, ROOM, piece, writes)?,
            status,
            output: String::from_str(alloc, output)?,
        })),
        _ => Ok(None),
    }
}
