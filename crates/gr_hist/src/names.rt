//! The names of the language, read from the fields of a line.
ghost use Rattle.std.specs.Prelude.{◌≡◌, IfOk};
ghost use Rattle.std.specs.List.{list_all, list_any};
ghost use Rattle.std.specs.Str.{IsUtf8, bytes_eq};
ghost use Rattle.gr_syntax.specs.Names.{has, is_letter, is_name, is_spelled, is_word, keywords};
ghost use Rattle.gr_hist.specs.Names.{is_object_name};
ghost use Rattle.gr_hist.specs.FieldWords.{Gives, name_of, object_name_of};

use crate::fields::{LineError, is_text};
use gr_syntax::{MAX_NAME, Text};
use std::alloc::{AllocError, Global};

/// The words of the language, which name nothing.
const KEYWORDS: [&str; 19] = [
    "array", "set", "map", "vector", "heap", "input", "show", "task", "let", "if", "else", "while",
    "print", "spawn", "at", "offer", "finish", "forall", "grain",
];

fn is_letter(byte: u8) -> bool
    ensures { result ≡ is_letter byte }
{
    matches!(byte, b'a'..=b'z' | b'A'..=b'Z' | b'_')
}

fn is_word(byte: u8) -> bool
    ensures { result ≡ is_word byte }
{
    is_letter(byte) || matches!(byte, b'0'..=b'9')
}

fn are_words(bytes: &[u8]) -> bool
    ensures { result ≡ list_all is_word bytes.now }
{
    bytes.iter().all(|byte| is_word(*byte))
}

fn is_spelled(bytes: &[u8]) -> bool
    ensures { result ≡ is_spelled bytes.now }
{
    match bytes {
        [] => false,
        [first, rest @ ..] => is_letter(*first) && are_words(rest),
    }
}

fn is_among(words: &[&str], bytes: &[u8]) -> bool
    ensures { result ≡ list_any (λ word. bytes_eq bytes.now word.now) words.now }
{
    words.iter().any(|word| bytes == word.as_bytes())
}

fn is_keyword(bytes: &[u8]) -> bool
    ensures { result ≡ has keywords bytes.now }
{
    is_among(&KEYWORDS, bytes)
}

fn is_name(bytes: &[u8]) -> bool
    ensures { result ≡ is_name bytes.now }
{
    is_spelled(bytes) && bytes.len() <= MAX_NAME && !is_keyword(bytes)
}

fn is_object_name(bytes: &[u8]) -> bool
    ensures { result ≡ is_object_name bytes.now }
{
    is_name(bytes) || is_text(bytes, "heap")
}

/// The text of these bytes, which are in UTF-8, so that none is replaced.
fn letters(alloc: Global, bytes: &[u8]) -> Result<Text, AllocError>
    requires { IsUtf8 bytes.now }
    ensures { IfOk result (λ text. text ≡ bytes.now) }
{
    Ok(Text::new(String::from_utf8_lossy(alloc, bytes)?))
}

/// The name that the bytes are.
pub fn name(alloc: Global, bytes: &[u8]) -> Result<Text, LineError>
    ensures { Gives (name_of bytes.now) result }
{
    if !is_name(bytes) {
        return Err(LineError::Bad);
    }
    let text = letters(alloc, bytes)?;
    Ok(text)
}

/// The name of an object that the bytes are, or `heap`.
pub fn object_name(alloc: Global, bytes: &[u8]) -> Result<Text, LineError>
    ensures { Gives (object_name_of bytes.now) result }
{
    if !is_object_name(bytes) {
        return Err(LineError::Bad);
    }
    let text = letters(alloc, bytes)?;
    Ok(text)
}
