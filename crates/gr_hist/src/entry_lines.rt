//! The lines of entries, written.
ghost use Rattle.std.specs.Prelude.{◌≡◌, ◌++◌, ◌∷◌, [], OnOk};
ghost use Rattle.gr_hist.specs.declared.text.NamedEntry.TheVariants as entry;
ghost use Rattle.gr_hist.specs.Grammar.{HasNumbers, IsId};
ghost use Rattle.gr_hist.specs.Spelling.{entry_line, id_bytes, line_of};

use crate::putting::{
    put_child, put_how, put_id, put_number, put_numbers, put_range, put_reducer, put_reply,
    put_text, put_word,
};
use gr_accept::Operation;
use gr_lang::{How, TaskId, TrapKind};
use std::alloc::AllocError;

/// Adds the line of a task and a word.
pub fn put_mark(out: &mut Vec<u8>, task: TaskId, word: &str) -> Result<(), AllocError>
    ensures text { OnOk result (out.new.items ≡ out.old.items
        ++ line_of (id_bytes task ∷ word.now ∷ [])) }
    ensures fits { IsId task }
{
    put_id(out, task)?;
    put_word(out, word)?;
    put_text(out, "\n")
}

/// Adds the line of a print.
pub fn put_print(out: &mut Vec<u8>, task: TaskId, word: u64) -> Result<(), AllocError>
    ensures text { OnOk result (out.new.items ≡ out.old.items
        ++ entry_line (entry.Print task word)) }
    ensures fits { HasNumbers (entry.Print task word) }
{
    put_id(out, task)?;
    put_text(out, " print ")?;
    put_number(out, word)?;
    put_text(out, "\n")
}

/// Adds the line of a call.
pub fn put_call(
    out: &mut Vec<u8>,
    task: TaskId,
    object: &str,
    op: Operation,
    reducer: Option<u64>,
    numbers: &[u64],
    reply: &[u64],
) -> Result<(), AllocError>
    ensures text { OnOk result (out.new.items ≡ out.old.items
        ++ entry_line (entry.Call task object.now op reducer numbers.now reply.now)) }
    ensures fits { OnOk result
        (HasNumbers (entry.Call task object.now op reducer numbers.now reply.now)) }
{
    put_id(out, task)?;
    put_word(out, object)?;
    put_word(out, op.name())?;
    put_reducer(out, reducer)?;
    put_numbers(out, numbers)?;
    put_reply(out, reply)?;
    put_text(out, "\n")
}

/// Adds the line of a task that starts.
pub fn put_start(
    out: &mut Vec<u8>,
    task: TaskId,
    how: How,
    target: &str,
    args: &[u64],
    child: TaskId,
) -> Result<(), AllocError>
    ensures text { OnOk result (out.new.items ≡ out.old.items
        ++ entry_line (entry.Spawn task how target.now args.now child)) }
    ensures fits { OnOk result (HasNumbers (entry.Spawn task how target.now args.now child)) }
{
    put_id(out, task)?;
    put_how(out, how)?;
    put_word(out, target)?;
    put_numbers(out, args)?;
    put_child(out, child)?;
    put_text(out, "\n")
}

/// Adds the line of a loop.
pub fn put_loop(
    out: &mut Vec<u8>,
    task: TaskId,
    lo: u64,
    hi: u64,
    grain: u64,
    target: &str,
    args: &[u64],
) -> Result<(), AllocError>
    ensures text { OnOk result (out.new.items ≡ out.old.items
        ++ entry_line (entry.Loop task lo hi grain target.now args.now)) }
    ensures fits { OnOk result (HasNumbers (entry.Loop task lo hi grain target.now args.now)) }
{
    put_id(out, task)?;
    put_range(out, lo, hi, grain)?;
    put_word(out, target)?;
    put_numbers(out, args)?;
    put_text(out, "\n")
}

/// Adds the line of an index that begins.
pub fn put_begin(
    out: &mut Vec<u8>,
    owner: TaskId,
    index: u64,
    child: TaskId,
) -> Result<(), AllocError>
    ensures text { OnOk result (out.new.items ≡ out.old.items
        ++ entry_line (entry.Begin owner index child)) }
    ensures fits { HasNumbers (entry.Begin owner index child) }
{
    put_id(out, owner)?;
    put_text(out, " begin ")?;
    put_number(out, index)?;
    put_child(out, child)?;
    put_text(out, "\n")
}

/// Adds the line of a trap.
pub fn put_trap(out: &mut Vec<u8>, task: TaskId, kind: TrapKind) -> Result<(), AllocError>
    ensures text { OnOk result (out.new.items ≡ out.old.items
        ++ entry_line (entry.Trap task kind)) }
    ensures fits { IsId task }
{
    put_id(out, task)?;
    put_text(out, " trap ")?;
    put_text(out, kind.word())?;
    put_text(out, "\n")
}
