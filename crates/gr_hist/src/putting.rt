//! The fields of a line, written.
ghost use Rattle.std.specs.Prelude.{◌≡◌, ◌++◌, ◌∷◌, All, OnOk, decimal, map};
ghost use Rattle.gr_hist.specs.Grammar.{IsHow, IsId, IsWord};
ghost use Rattle.gr_hist.specs.Spelling.{child_fields, how_fields, id_bytes, range_fields};
ghost use Rattle.gr_hist.specs.Spelling.{reducer_field, reply_fields};
ghost use Rattle.gr_hist.specs.WritingWords.{trail};

use gr_accept::reducer_name;
use gr_lang::{How, TaskId};
use itoa::Buffer;
use std::alloc::AllocError;

/// Adds bytes.
pub fn put(out: &mut Vec<u8>, bytes: &[u8]) -> Result<(), AllocError>
    ensures { OnOk result (out.new.items ≡ out.old.items ++ bytes.now) }
{
    out.extend_from_slice(bytes)?;
    Ok(())
}

/// Adds a text.
pub fn put_text(out: &mut Vec<u8>, text: &str) -> Result<(), AllocError>
    ensures { OnOk result (out.new.items ≡ out.old.items ++ text.now) }
{
    put(out, text.as_bytes())
}

/// Adds a number in decimal.
pub fn put_number(out: &mut Vec<u8>, number: u64) -> Result<(), AllocError>
    ensures text { OnOk result (out.new.items ≡ out.old.items ++ decimal number) }
    ensures fits { IsWord number }
{
    let mut buffer = Buffer::new();
    put(out, buffer.format(number).as_bytes())
}

/// Adds a task's core and number.
pub fn put_id(out: &mut Vec<u8>, id: TaskId) -> Result<(), AllocError>
    ensures text { OnOk result (out.new.items ≡ out.old.items ++ id_bytes id) }
    ensures fits { IsId id }
{
    put_number(out, id.core)?;
    put_text(out, ".")?;
    put_number(out, id.number)
}

/// Adds a field that is a word.
pub fn put_word(out: &mut Vec<u8>, word: &str) -> Result<(), AllocError>
    ensures { OnOk result (out.new.items ≡ out.old.items ++ 32 ∷ word.now) }
{
    put_text(out, " ")?;
    put_text(out, word)
}

/// Adds fields that are numbers.
pub fn put_numbers(out: &mut Vec<u8>, numbers: &[u64]) -> Result<(), AllocError>
    ensures text { OnOk result (out.new.items ≡ out.old.items ++ trail (map decimal numbers.now)) }
    ensures fits { OnOk result (All IsWord numbers.now) }
{
    for number in numbers {
        put_text(out, " ")?;
        put_number(out, *number)?;
    }
    Ok(())
}

/// Adds the word of a reducer, if there is one.
pub fn put_reducer(out: &mut Vec<u8>, reducer: Option<u64>) -> Result<(), AllocError>
    ensures { OnOk result (out.new.items ≡ out.old.items ++ trail (reducer_field reducer)) }
{
    match reducer {
        Some(number) => put_word(out, reducer_name(number)),
        None => Ok(()),
    }
}

/// Adds the result words of a call, behind `=` if there are any.
pub fn put_reply(out: &mut Vec<u8>, words: &[u64]) -> Result<(), AllocError>
    ensures text { OnOk result (out.new.items ≡ out.old.items ++ trail (reply_fields words.now)) }
    ensures fits { OnOk result (All IsWord words.now) }
{
    if !words.is_empty() {
        put_text(out, " =")?;
    }
    put_numbers(out, words)
}

/// Adds how a task is started.
pub fn put_how(out: &mut Vec<u8>, how: How) -> Result<(), AllocError>
    ensures text { OnOk result (out.new.items ≡ out.old.items ++ trail (how_fields how)) }
    ensures fits { IsHow how }
{
    match how {
        How::Here => put_text(out, " spawn"),
        How::At { core } => {
            put_text(out, " spawn at ")?;
            put_number(out, core)
        }
        How::Offer => put_text(out, " offer"),
    }
}

/// Adds the range of a loop and its grain.
pub fn put_range(out: &mut Vec<u8>, lo: u64, hi: u64, grain: u64) -> Result<(), AllocError>
    ensures text { OnOk result (out.new.items ≡ out.old.items ++ trail (range_fields lo hi grain)) }
    ensures fits { IsWord lo × IsWord hi × IsWord grain }
{
    put_text(out, " forall ")?;
    put_number(out, lo)?;
    put_text(out, " ")?;
    put_number(out, hi)?;
    put_text(out, " grain ")?;
    put_number(out, grain)
}

/// Adds the new task, behind `as`.
pub fn put_child(out: &mut Vec<u8>, child: TaskId) -> Result<(), AllocError>
    ensures text { OnOk result (out.new.items ≡ out.old.items ++ trail (child_fields child)) }
    ensures fits { IsId child }
{
    put_text(out, " as ")?;
    put_id(out, child)
}
