//! Rows of packets. A row `packets` has bytes in hexadecimal, and its calls say what becomes of them: `whole`
//! leaves them, `cut` takes so many from the front, and `set` puts a byte at a place. The answer is `whole` where
//! these bytes open and what they say is packed as these bytes again, and else the place of the fault.
use crate::call::{Call, calls_of, no_such_call};
use gr_msg::{DecodeError, decode, encode, packets_are_exact};
use serde_json::Value;
use std::alloc::{AllocError, Global};

/// Some bytes as a call changes them; none where there is no such call.
fn changed(alloc: Global, bytes: &[u8], call: &Call) -> Result<Option<Vec<u8>>, AllocError> {
    let mut copied = Vec::from_slice(alloc, bytes)?;
    match call.word(0) {
        "whole" => Ok(Some(copied)),
        "cut" => {
            copied.truncate(call.number(0) as usize);
            Ok(Some(copied))
        }
        "set" => {
            let value = call.numbers().get(1).copied().unwrap_or(0) % 256;
            if let Some(byte) = copied.get_mut(call.number(0) as usize) {
                *byte = value as u8;
            }
            Ok(Some(copied))
        }
        _ => Ok(None),
    }
}

/// What the bytes open to; the place of the fault where they don't.
fn answer(alloc: Global, bytes: &[u8]) -> Result<String, AllocError> {
    packets_are_exact();
    let found = decode(alloc, bytes);
    match found {
        Ok(opened) => {
            let packet = encode(alloc, opened.clock, &opened.messages)?;
            let is_same = packet.bytes() == bytes;
            String::from_str(alloc, if is_same { "whole" } else { "other bytes" })
        }
        Err(DecodeError::NotAPacket { at }) => format!(in alloc; "at {at}"),
        Err(DecodeError::OutOfMemory) => Err(AllocError),
    }
}

/// The answers of a row of packets.
pub fn packets(alloc: Global, row: &Value) -> Result<Option<Vec<String>>, AllocError> {
    let Some(digits) = row.get("hex").and_then(Value::as_str) else {
        return Ok(None);
    };
    let Ok(bytes) = hex::decode(alloc, digits) else {
        return Ok(None);
    };
    let Some(calls) = calls_of(alloc, row)? else {
        return Ok(None);
    };
    let mut answers = Vec::new(alloc);
    for call in calls.as_slice() {
        let text = match changed(alloc, bytes.as_slice(), call)? {
            Some(bytes) => answer(alloc, bytes.as_slice())?,
            None => no_such_call(alloc)?,
        };
        answers.push(text)?;
    }
    Ok(Some(answers))
}
