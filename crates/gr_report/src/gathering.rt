//! What the cores of a run hold together.
ghost use Rattle.std.specs.Prelude.{◌≡◌, ℕ, ◌+◌, IfOk, OnOk, Some};
ghost use Rattle.std.specs.Option.{option_or};
ghost use Rattle.std.specs.Map.{keys_of as keys_in, values_of as values_in};
ghost use Rattle.gr_code.specs.Shapes.{shapes_of};
ghost use Rattle.gr_store.specs.Stores.{Lists};
ghost use Rattle.gr_vector.specs.Parts.{part_of};
ghost use Rattle.gr_report.specs.Gathered.{AreGathered, AreWords, IsGathered, held_by, held_of, word_by};

use crate::merging::{note_all, pairs_of};
use gr_code::{Code, Shape};
use gr_core::Core;
use gr_lang::{Pairs, Words};
use gr_memory::{Content, Contents};
use std::alloc::{AllocError, Global};
use std::collections::BTreeMap;

/// The word of an address; none where no core has it.
#[tactic(auto, unfolding(crate::specs::Gathered::first_held))]
fn word_at<'a>(cores: &[Core<'a>], at: u64) -> Option<u64>
    ensures { result ≡ word_by cores.now at }
{
    for core in cores {
        let word = core.word(at);
        match word {
            Some(word) => return Some(word),
            None => {}
        }
    }
    None
}

/// The word at a place of the array from an address on. It is an error where no core has it.
fn array_word<'a>(cores: &[Core<'a>], from: u64, place: u64) -> Result<u64, AllocError>
    ensures { IfOk result (λ word. word_by cores.now (from + place) ≡ Some word) }
{
    let Some(at) = from.checked_add(place) else {
        return Err(AllocError);
    };
    match word_at(cores, at) {
        Some(word) => Ok(word),
        None => Err(AllocError),
    }
}

/// The words of an array of so many words from an address on.
fn array_words<'a>(
    alloc: Global,
    cores: &[Core<'a>],
    from: u64,
    count: u64,
) -> Result<Words, AllocError>
    ensures { IfOk result (λ words. AreWords cores.now from count words) }
{
    let mut words = Vec::new(alloc);
    for place in 0..count {
        let word = array_word(cores, from, place)?;
        words.push(word)?;
    }
    Ok(Words::from_vec(words))
}

/// What lies at a core of an object.
fn held_at<'a>(core: &Core<'a>, object: u64) -> Result<Pairs, AllocError>
    ensures { IfOk result (λ pairs. (at : ℕ) → part_of pairs at ≡ held_of object core.now at) }
{
    let pairs = core.held(object)?;
    Ok(pairs)
}

/// What the cores hold of an object is put under its keys or positions.
#[tactic(auto, unfolding(crate::specs::Gathered::first_held))]
fn note_cores<'a>(
    words: &mut BTreeMap<u64, u64>,
    cores: &[Core<'a>],
    object: u64,
) -> Result<(), AllocError>
    ensures { OnOk result ((at : ℕ) → part_of words.new.entries at
        ≡ option_or (part_of words.old.entries at) (held_by cores.now object at)) }
{
    for core in cores {
        let pairs = held_at(core, object)?;
        note_all(words, pairs.as_slice())?;
    }
    Ok(())
}

/// What the cores hold of an object, by rising key or position.
fn held_by<'a>(alloc: Global, cores: &[Core<'a>], object: u64) -> Result<Pairs, AllocError>
    ensures { IfOk result (λ pairs. Lists pairs (held_by cores.now object)) }
{
    let mut words = BTreeMap::new(alloc);
    note_cores(&mut words, cores, object)?;
    let pairs = pairs_of(alloc, &words)?;
    Ok(pairs)
}

/// The keys of pairs.
fn keys_of(alloc: Global, pairs: &[(u64, u64)]) -> Result<Words, AllocError>
    ensures { IfOk result (λ keys. keys ≡ keys_in pairs.now) }
{
    let mut keys = Vec::with_capacity(alloc, pairs.len())?;
    for (key, _) in pairs {
        keys.push(*key)?;
    }
    Ok(Words::from_vec(keys))
}

/// The words of pairs.
fn words_of(alloc: Global, pairs: &[(u64, u64)]) -> Result<Words, AllocError>
    ensures { IfOk result (λ words. words ≡ values_in pairs.now) }
{
    let mut words = Vec::with_capacity(alloc, pairs.len())?;
    for (_, word) in pairs {
        words.push(*word)?;
    }
    Ok(Words::from_vec(words))
}

/// The content of the object of a number and a shape.
fn gather<'a>(
    alloc: Global,
    cores: &[Core<'a>],
    object: u64,
    shape: Shape,
) -> Result<Content, AllocError>
    ensures { IfOk result (λ content. IsGathered cores.now object shape content) }
{
    match shape {
        Shape::Words { from, words } => {
            let words = array_words(alloc, cores, from, words)?;
            Ok(Content::Array { words })
        }
        Shape::Set => {
            let pairs = held_by(alloc, cores, object)?;
            let keys = keys_of(alloc, pairs.as_slice())?;
            Ok(Content::Set { keys })
        }
        Shape::Map => {
            let pairs = held_by(alloc, cores, object)?;
            Ok(Content::Map { pairs })
        }
        Shape::Vector => {
            let pairs = held_by(alloc, cores, object)?;
            let words = words_of(alloc, pairs.as_slice())?;
            Ok(Content::Vector { words })
        }
    }
}

/// The contents of objects of these shapes.
fn gather_all<'a>(
    alloc: Global,
    cores: &[Core<'a>],
    shapes: &[Shape],
) -> Result<Contents, AllocError>
    ensures { IfOk result (λ contents. AreGathered cores.now 0 shapes.now contents) }
{
    let mut contents = Contents::new(alloc);
    for (object, shape) in shapes.iter().enumerate() {
        let content = gather(alloc, cores, object as u64, *shape)?;
        contents.push(content)?;
    }
    Ok(contents)
}

/// What the cores of a run hold together of each object but the heap, by the objects' numbers. An error is want of
/// memory, or that no core has the word of an address of an array.
pub fn contents<'a>(
    alloc: Global,
    code: &Code<'a>,
    cores: &[Core<'a>],
) -> Result<Contents, AllocError>
    ensures { IfOk result (λ contents.
        AreGathered cores.now 0 (shapes_of code.now.program) contents) }
{
    gather_all(alloc, cores, code.objects().as_slice())
}
