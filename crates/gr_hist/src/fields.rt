//! The fields of a line: numbers and tasks.
ghost use Rattle.std.specs.Prelude.{◌≡◌, ◌==◌, map, option_map, IfOk};
ghost use Rattle.std.specs.List.{position_or_len};
ghost use Rattle.std.specs.Str.{bytes_eq};
ghost use Rattle.gr_hist.specs.FieldWords.{Gives, bytes_of, child_of, counted_of, cut_at};
ghost use Rattle.gr_hist.specs.FieldWords.{digit_after, digits_after, fields_in, id_of, leads};
ghost use Rattle.gr_hist.specs.FieldWords.{number_of, numbers_of};

use gr_lang::{TaskId, Words};
use std::alloc::{AllocError, Global};

/// Why fields aren't read.
#[derive(Clone, Copy)]
pub enum LineError {
    /// The grammar doesn't take them.
    Bad,
    /// There is no memory.
    OutOfMemory,
}

impl From<AllocError> for LineError {
    ghost use Rattle.std.specs.Prelude.{◌≡◌};
    ghost use Rattle.gr_hist.specs.declared.fields.LineError.TheVariants as error;

    ghost from_gives = { λ e r. r ≡ error.OutOfMemory };

    fn from(error: AllocError) -> LineError {
        let _ = error;
        LineError::OutOfMemory
    }
}

/// The value, or `Bad` where there is none.
pub fn given<T>(found: Option<T>) -> Result<T, LineError>
    ensures { Gives found result }
{
    match found {
        Some(value) => Ok(value),
        None => Err(LineError::Bad),
    }
}

/// Whether the bytes are this word.
pub fn is_text(bytes: &[u8], word: &str) -> bool
    ensures { result ≡ bytes_eq bytes.now word.now }
{
    bytes == word.as_bytes()
}

fn digit_after(value: u64, byte: u8) -> Option<u64>
    ensures { result ≡ digit_after value byte }
{
    if !byte.is_ascii_digit() {
        return None;
    }
    let digit = (byte - b'0') as u64;
    let shifted = value.checked_mul(10)?;
    let sum = shifted.checked_add(digit)?;
    Some(sum)
}

fn digits(bytes: &[u8]) -> Option<u64>
    ensures { result ≡ digits_after 0 bytes.now }
{
    let mut value: u64 = 0;
    for byte in bytes {
        value = digit_after(value, *byte)?;
    }
    Some(value)
}

fn leads(bytes: &[u8]) -> bool
    ensures { result ≡ leads bytes.now }
{
    match bytes {
        [] => false,
        [_] => true,
        [first, ..] => *first != b'0',
    }
}

#[tactic(auto, unfolding(crate::specs::FieldWords::number_of))]
fn value_of(bytes: &[u8]) -> Option<u64>
    ensures { result ≡ number_of bytes.now }
{
    if leads(bytes) { digits(bytes) } else { None }
}

/// The number below 2^64 that the bytes write in decimal, without a leading 0.
pub fn number(bytes: &[u8]) -> Result<u64, LineError>
    ensures { Gives (number_of bytes.now) result }
{
    given(value_of(bytes))
}

fn len_before(bytes: &[u8], stop: u8) -> usize
    ensures { result ≡ position_or_len (λ byte. byte == stop) bytes.now }
{
    bytes.iter().take_while(|byte| **byte != stop).count()
}

/// What stands before the first such byte, and what stands behind it.
pub fn cut(bytes: &[u8], stop: u8) -> Option<(&[u8], &[u8])>
    ensures { option_map (λ halves. (halves.0.now, halves.1.now)) result ≡ cut_at stop bytes.now }
{
    let len = len_before(bytes, stop);
    if len < bytes.len() {
        Some((&bytes[..len], &bytes[len + 1..]))
    } else {
        None
    }
}

/// The task of that core and number.
pub fn id(bytes: &[u8]) -> Result<TaskId, LineError>
    ensures { Gives (id_of bytes.now) result }
{
    let halves = cut(bytes, b'.');
    match halves {
        Some((front, back)) => {
            let core = number(front)?;
            let number = number(back)?;
            Ok(TaskId { core, number })
        }
        None => Err(LineError::Bad),
    }
}

/// The task behind `as`.
pub fn child(fields: &[&[u8]]) -> Result<TaskId, LineError>
    ensures { Gives (child_of (bytes_of fields.now)) result }
{
    match fields {
        [sign, child] => {
            let is_child = is_text(*sign, "as");
            if !is_child {
                return Err(LineError::Bad);
            }
            let task = id(*child)?;
            Ok(task)
        }
        [] | [_] | [_, _, _, ..] => Err(LineError::Bad),
    }
}

/// The fields of a line, between its spaces.
pub fn fields(alloc: Global, line: &[u8]) -> Result<Vec<&[u8]>, AllocError>
    ensures { IfOk result (λ fields. bytes_of fields.items ≡ fields_in line.now) }
{
    line.split(|byte| *byte == b' ').collect(alloc)
}

/// The numbers that the fields write.
pub fn numbers(alloc: Global, fields: &[&[u8]]) -> Result<Words, LineError>
    ensures { Gives (numbers_of (bytes_of fields.now)) result }
{
    let mut words = Words::new(alloc);
    for field in fields {
        let word = number(*field)?;
        words.push(word)?;
    }
    Ok(words)
}

/// The numbers that so many fields write.
pub fn counted(alloc: Global, count: usize, fields: &[&[u8]]) -> Result<Words, LineError>
    ensures { Gives (counted_of count (bytes_of fields.now)) result }
{
    if fields.len() != count {
        return Err(LineError::Bad);
    }
    let words = numbers(alloc, fields)?;
    Ok(words)
}
