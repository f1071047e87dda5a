//! The words with which the arrays of a program open.
ghost use Rattle.std.specs.Prelude.{◌≡◌, IfOk, length, map, slice_index};
ghost use Rattle.gr_lang.specs.Openings.{array_words, heap_words, input_of};
ghost use Rattle.gr_code.specs.OpeningWords.{all_words, input_pair, inputs_of, numbers_for, words_of};

use gr_syntax::{Item, Number, Text};
use std::alloc::{AllocError, Global};

/// The numbers for the array of that name.
#[derive(Drop)]
pub struct Input<'a> {
    of: &'a Text,
    values: &'a [Number],
}

/// The words of an array: its numbers first, then zeros up to its count.
#[derive(Drop)]
pub struct ArrayWords<'a> {
    count: u64,
    first: &'a [Number],
}

impl<'a> ArrayWords<'a> {
    /// The number of words.
    pub fn len(&self) -> u64
        ensures { result ≡ length (words_of self.now) }
    {
        self.count.max(self.first.len() as u64)
    }

    /// The word at that place; 0 where there is none.
    fn word(&self, at: u64) -> u64
        ensures { result ≡ slice_index (words_of self.now) at }
    {
        match self.first.get(at as usize) {
            Some(number) => number.value,
            None => 0,
        }
    }
}

fn inputs_in<'a>(alloc: Global, items: &'a [Item]) -> Result<Vec<Input<'a>>, AllocError>
    ensures { IfOk result (λ inputs. map input_pair inputs.items ≡ inputs_of items.now) }
{
    let mut inputs = Vec::new(alloc);
    for item in items {
        match item {
            Item::Input { name, values } => inputs.push(Input {
                of: &name.text,
                values: values.as_slice(),
            })?,
            _ => (),
        }
    }
    Ok(inputs)
}

/// The numbers for the array of that name; none where it has no input.
fn numbers_in<'a>(inputs: &[Input<'a>], name: &Text) -> &'a [Number]
    ensures { map (λ number. number.value) result.now
        ≡ numbers_for (map input_pair inputs.now) name.now }
{
    for input in inputs {
        if input.of.is(name) {
            return input.values;
        }
    }
    &[]
}

/// The arrays among these items, with their words.
pub fn arrays_in<'a>(alloc: Global, items: &'a [Item]) -> Result<Vec<ArrayWords<'a>>, AllocError>
    ensures { IfOk result (λ arrays. all_words arrays.items ≡ array_words items.now items.now) }
{
    let inputs = inputs_in(alloc, items)?;
    let mut arrays = Vec::new(alloc);
    for item in items {
        match item {
            Item::Array { name, words } => {
                let first = numbers_in(&inputs, &name.text);
                arrays.push(ArrayWords {
                    count: words.value,
                    first,
                })?;
            }
            _ => (),
        }
    }
    Ok(arrays)
}

/// The word at that address; 0 behind the last array.
pub fn word_in(arrays: &[ArrayWords], at: u64) -> u64
    ensures { result ≡ slice_index (all_words arrays.now) at }
{
    let mut left = at;
    for array in arrays {
        let len = array.len();
        if left < len {
            return array.word(left);
        }
        left -= len;
    }
    0
}

/// The number of words of all arrays. An error is want of memory for so many.
pub fn words_in(arrays: &[ArrayWords]) -> Result<u64, AllocError>
    ensures { IfOk result (λ count. count ≡ length (all_words arrays.now)) }
{
    let mut count: u64 = 0;
    for array in arrays {
        match count.checked_add(array.len()) {
            Some(sum) => count = sum,
            None => return Err(AllocError),
        }
    }
    Ok(count)
}

/// The number of words of the heap; 0 where there is none.
pub fn heap_words_of(items: &[Item]) -> u64
    ensures { result ≡ heap_words items.now }
{
    for item in items {
        match item {
            Item::Heap { words } => return words.value,
            _ => (),
        }
    }
    0
}
