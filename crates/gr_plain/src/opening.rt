//! What a run opens with: the objects of a program with their first words.
ghost use Rattle.std.specs.Prelude.{◌≡◌, ◌<◌, ◌≤◌, ◌^◌, ◌++◌, IfOk, OnOk, map, replicate};
ghost use Rattle.gr_lang.specs.Openings.{array_words, heap_words, input_of, objects_from, opening, padded};
ghost use Rattle.gr_plain.specs.SizeWords.{arrays_in};
ghost use Rattle.gr_steps.specs.HeapRanges.{IsHeap};
ghost use Rattle.gr_syntax.specs.declared.limits.TheConstants.{MAX_WORDS};

use gr_memory::{Memory, Thing};
use gr_steps::HeapRange;
use gr_syntax::{Item, Number, Program, Text};
use std::alloc::{AllocError, Global};

/// The objects with which a run opens: arrays lie one after another, and all else is empty.
fn things_in(alloc: Global, items: &[Item]) -> Result<Vec<Thing>, AllocError>
    requires { arrays_in items.now < 2 ^ 64 }
    ensures { IfOk result (λ things. things.items ≡ objects_from 0 items.now) }
{
    let mut things = Vec::new(alloc);
    let mut from: u64 = 0;
    for item in items {
        match item {
            Item::Array { words, .. } => {
                things.push(Thing::array(from, words.value))?;
                from += words.value;
            }
            Item::Set { .. } => things.push(Thing::set(alloc))?,
            Item::Map { .. } => things.push(Thing::map(alloc))?,
            Item::Vector { .. } => things.push(Thing::vector(alloc))?,
            _ => (),
        }
    }
    Ok(things)
}

/// The numbers of an array's input; none where it has no input.
fn input_in<'a>(items: &'a [Item], name: &Text) -> &'a [Number]
    ensures { map (λ number. number.value) result.now ≡ input_of items.now name.now }
{
    for item in items {
        match item {
            Item::Input { name: of, values } => {
                if of.text.is(name) {
                    return values.as_slice();
                }
            }
            _ => (),
        }
    }
    &[]
}

/// Adds so many zeros.
#[tactic(auto, using(crate::proofs::Zeros::zeros_step))]
fn push_zeros(words: &mut Vec<u64>, count: u64) -> Result<(), AllocError>
    ensures { OnOk result (words.new.items ≡ words.old.items ++ replicate count 0) }
{
    let mut left = count;
    while left > 0 {
        words.push(0)?;
        left -= 1;
    }
    Ok(())
}

fn push_numbers(words: &mut Vec<u64>, numbers: &[Number]) -> Result<(), AllocError>
    ensures { OnOk result (words.new.items
        ≡ words.old.items ++ map (λ number. number.value) numbers.now) }
{
    for number in numbers {
        words.push(number.value)?;
    }
    Ok(())
}

/// Adds so many words: these numbers first, then zeros.
fn push_padded(words: &mut Vec<u64>, count: u64, first: &[Number]) -> Result<(), AllocError>
    ensures { OnOk result (words.new.items
        ≡ words.old.items ++ padded count (map (λ number. number.value) first.now)) }
{
    push_numbers(words, first)?;
    push_zeros(words, count.saturating_sub(first.len() as u64))
}

/// The first words of the arrays.
fn array_words_of(alloc: Global, items: &[Item]) -> Result<Vec<u64>, AllocError>
    ensures { IfOk result (λ words. words.items ≡ array_words items.now items.now) }
{
    let mut words = Vec::new(alloc);
    for item in items {
        match item {
            Item::Array { name, words: count } => {
                let first = input_in(items, &name.text);
                push_padded(&mut words, count.value, first)?;
            }
            _ => (),
        }
    }
    Ok(words)
}

fn heap_words_of(items: &[Item]) -> u64
    ensures { result ≡ heap_words items.now }
{
    for item in items {
        match item {
            Item::Heap { words } => return words.value,
            _ => (),
        }
    }
    0
}

/// The memory with which a run opens, and where the heap lies in it.
#[tactic(auto, unfolding(gr_lang::specs::Openings::opening))]
pub fn open_memory(alloc: Global, program: &Program) -> Result<(Memory, HeapRange), AllocError>
    requires { heap_words program.now.items ≤ MAX_WORDS }
    ensures memory { IfOk result (λ opened. opened.0 ≡ opening program.now) }
    ensures heap { IfOk result (λ opened. IsHeap opened.1 program.now) }
{
    let items = program.items.as_slice();
    let mut words = array_words_of(alloc, items)?;
    let heap = HeapRange {
        from: words.len() as u64,
        count: heap_words_of(items),
    };
    let things = things_in(alloc, items)?;
    push_zeros(&mut words, heap.count)?;
    let memory = Memory::new(alloc, words, things, heap.from, heap.count)?;
    Ok((memory, heap))
}
