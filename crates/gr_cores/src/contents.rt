//! What stands in the objects of a run: the words of arrays, and the keys of sets and maps.
use gr_code::{Code, Shape};
use gr_core::Core;
use std::alloc::{AllocError, Global};

/// The word at an address, which one of the cores has.
fn word(cores: &[Core], at: u64) -> Option<u64> {
    for core in cores {
        if let Some(word) = core.word(at) {
            return Some(word);
        }
    }
    None
}

fn words_text(
    alloc: Global,
    cores: &[Core],
    number: usize,
    from: u64,
    words: u64,
) -> Result<String, AllocError> {
    let mut text = format!(in alloc; "object {number}: words")?;
    for place in 0..words {
        match word(cores, from.saturating_add(place)) {
            Some(word) => text.push_str(format!(in alloc; " {word}")?.as_str())?,
            None => text.push_str(" none")?,
        }
    }
    Ok(text)
}

/// The keys of an object at all cores, with their words, by rising key.
fn keys(alloc: Global, cores: &[Core], number: usize) -> Result<Vec<(u64, u64)>, AllocError> {
    let mut all = Vec::new(alloc);
    for core in cores {
        let pairs = core.held(number as u64)?;
        for pair in pairs.as_slice() {
            all.push(*pair)?;
        }
    }
    all.sort()?;
    Ok(all)
}

fn keys_text(alloc: Global, cores: &[Core], number: usize) -> Result<String, AllocError> {
    let keys = keys(alloc, cores, number)?;
    let mut text = format!(in alloc; "object {number}: keys")?;
    for pair in keys.as_slice() {
        text.push_str(format!(in alloc; " {}={}", pair.0, pair.1)?.as_str())?;
    }
    Ok(text)
}

/// A line for each array, set and map.
pub fn contents(alloc: Global, code: &Code, cores: &[Core]) -> Result<Vec<String>, AllocError> {
    let mut lines = Vec::new(alloc);
    let shapes = code.objects().as_slice();
    for number in 0..shapes.len() {
        match shapes[number] {
            Shape::Words { from, words } => {
                lines.push(words_text(alloc, cores, number, from, words)?)?;
            }
            Shape::Set | Shape::Map => lines.push(keys_text(alloc, cores, number)?)?,
            Shape::Vector => {}
        }
    }
    Ok(lines)
}
