//! An operation taken apart, and put together from its parts.
ghost use Rattle.std.specs.Prelude.{◌≡◌, None, slice_index};
ghost use Rattle.gr_lang.specs.declared.action.Parts.TheVariants as variant;
ghost use Rattle.gr_lang.specs.Parts.{op_in, op_of, parts_of, reducing, same_op, same_parts};

use crate::action::{Op, Parts};
use gr_accept::Operation;
use gr_syntax::HEAP;

fn plain(operation: Operation, object: u64, words: [u64; 3]) -> Parts
    ensures { result ≡ variant.Call operation object None words }
{
    Parts::Call {
        operation,
        object,
        reducer: None,
        words,
    }
}

fn reducing(operation: Operation, object: u64, reducer: u64, first: u64, second: u64) -> Parts
    ensures { result ≡ reducing operation object reducer first second }
{
    Parts::Call {
        operation,
        object,
        reducer: Some(reducer),
        words: [first, second, 0],
    }
}

fn word_at(words: &[u64], at: usize) -> u64
    ensures { result ≡ slice_index words.now at }
{
    match words.get(at) {
        None => 0,
        Some(word) => *word,
    }
}

/// The operation on this object, with its reducer and its words; a word that isn't there is 0.
pub fn op_of(operation: Operation, object: u64, reducer: u64, words: &[u64]) -> Op
    ensures { result ≡ op_of operation object reducer words.now }
{
    let place = word_at(words, 0);
    let word = word_at(words, 1);
    let new = word_at(words, 2);
    match operation {
        Operation::Read => Op::Read { object, place },
        Operation::Write => Op::Write {
            object,
            place,
            word,
        },
        Operation::Add => Op::Add {
            object,
            place,
            word,
        },
        Operation::Cas => Op::Cas {
            object,
            place,
            old: word,
            new,
        },
        Operation::Reduce => Op::Reduce {
            object,
            reducer,
            place,
            word,
        },
        Operation::Insert => Op::Insert { object, key: place },
        Operation::Remove => Op::Remove { object, key: place },
        Operation::Has => Op::Has { object, key: place },
        Operation::Put => Op::Put {
            object,
            key: place,
            word,
        },
        Operation::Merge => Op::Merge {
            object,
            reducer,
            key: place,
            word,
        },
        Operation::Get => Op::Get { object, key: place },
        Operation::Erase => Op::Erase { object, key: place },
        Operation::Push => Op::Push {
            object,
            word: place,
        },
        Operation::Pop => Op::Pop { object },
        Operation::Dequeue => Op::Dequeue { object },
        Operation::Alloc => Op::Alloc { count: place },
        Operation::Free => Op::Free { place },
    }
}

impl Op {
    /// Its operation, object, reducer and words; the heap's blocks are those of the object 255.
    pub fn parts(self) -> Parts
        ensures { result ≡ parts_of self }
    {
        match self {
            Op::Read { object, place } => plain(Operation::Read, object, [place, 0, 0]),
            Op::Write {
                object,
                place,
                word,
            } => plain(Operation::Write, object, [place, word, 0]),
            Op::Add {
                object,
                place,
                word,
            } => plain(Operation::Add, object, [place, word, 0]),
            Op::Cas {
                object,
                place,
                old,
                new,
            } => plain(Operation::Cas, object, [place, old, new]),
            Op::Reduce {
                object,
                reducer,
                place,
                word,
            } => reducing(Operation::Reduce, object, reducer, place, word),
            Op::Insert { object, key } => plain(Operation::Insert, object, [key, 0, 0]),
            Op::Remove { object, key } => plain(Operation::Remove, object, [key, 0, 0]),
            Op::Has { object, key } => plain(Operation::Has, object, [key, 0, 0]),
            Op::Put { object, key, word } => plain(Operation::Put, object, [key, word, 0]),
            Op::Get { object, key } => plain(Operation::Get, object, [key, 0, 0]),
            Op::Erase { object, key } => plain(Operation::Erase, object, [key, 0, 0]),
            Op::Merge {
                object,
                reducer,
                key,
                word,
            } => reducing(Operation::Merge, object, reducer, key, word),
            Op::Push { object, word } => plain(Operation::Push, object, [word, 0, 0]),
            Op::Pop { object } => plain(Operation::Pop, object, [0, 0, 0]),
            Op::Dequeue { object } => plain(Operation::Dequeue, object, [0, 0, 0]),
            Op::Alloc { count } => plain(Operation::Alloc, HEAP, [count, 0, 0]),
            Op::Free { place } => plain(Operation::Free, HEAP, [place, 0, 0]),
            Op::Print { word } => Parts::Print { word },
        }
    }

    /// Whether both are the same operation with the same words.
    pub fn is(self, other: Op) -> bool
        ensures { result ≡ same_op self other }
    {
        self.parts().is(other.parts())
    }
}

impl Parts {
    /// The operation with these parts.
    pub fn op(self) -> Op
        ensures { result ≡ op_in self }
    {
        match self {
            Parts::Call {
                operation,
                object,
                reducer,
                words,
            } => op_of(operation, object, reducer.unwrap_or(0), &words),
            Parts::Print { word } => Op::Print { word },
        }
    }

    fn is(self, other: Parts) -> bool
        ensures { result ≡ same_parts self other }
    {
        match (self, other) {
            (
                Parts::Call {
                    operation,
                    object,
                    reducer,
                    words,
                },
                Parts::Call {
                    operation: operation2,
                    object: object2,
                    reducer: reducer2,
                    words: words2,
                },
            ) => operation.is(operation2)
                && object == object2
                && reducer.unwrap_or(0) == reducer2.unwrap_or(0)
                && words == words2,
            (Parts::Print { word }, Parts::Print { word: word2 }) => word == word2,
            _ => false,
        }
    }
}
