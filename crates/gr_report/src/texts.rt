//! The texts that tell of a history.
ghost use Rattle.std.specs.Prelude.{◌≡◌, ◌++◌, IfOk, OnOk, string_bytes};
ghost use Rattle.gr_report.specs.Texts as spec;

use gr_lang::{Entry, Op, TaskId, TrapKind};
use std::alloc::{AllocError, Global};
use std::fmt::Write;

fn printed_by(entry: &Entry) -> Option<u64>
    ensures { result ≡ spec.printed_by entry.now }
{
    match entry {
        Entry::Call {
            op: Op::Print { word },
            ..
        } => Some(*word),
        _ => None,
    }
}

fn write_line(text: &mut String, word: Option<u64>) -> Result<(), AllocError>
    ensures { OnOk result (string_bytes text.new ≡ string_bytes text.old ++ spec.line_of word) }
{
    match word {
        Some(word) => {
            writeln!(text, "{word}")?;
            Ok(())
        }
        None => Ok(()),
    }
}

/// What a history prints, a line for each word. An error is want of memory.
#[tactic(auto, unfolding(crate::specs::Texts::prints))]
pub fn prints(alloc: Global, history: &[Entry]) -> Result<String, AllocError>
    ensures { IfOk result (λ text. string_bytes text ≡ spec.prints history.now) }
{
    let mut text = String::new(alloc);
    for entry in history {
        let word = printed_by(entry);
        write_line(&mut text, word)?;
    }
    Ok(text)
}

/// A task that is trapped, and why.
#[derive(Clone, Copy)]
pub struct TrapAt {
    pub kind: TrapKind,
    pub task: TaskId,
}

fn trap_of(entry: &Entry) -> Option<TrapAt>
    ensures { result ≡ spec.trap_of entry.now }
{
    match entry {
        Entry::Trap { task, kind } => Some(TrapAt {
            kind: *kind,
            task: *task,
        }),
        _ => None,
    }
}

/// The first trap of a history.
#[tactic(auto, unfolding(crate::specs::Texts::first_trap))]
pub fn first_trap(history: &[Entry]) -> Option<TrapAt>
    ensures { result ≡ spec.first_trap history.now }
{
    for entry in history {
        let found = trap_of(entry);
        match found {
            Some(trap) => return Some(trap),
            None => {}
        }
    }
    None
}

/// Adds the line that tells of a trap. An error is want of memory.
pub fn write_trap(text: &mut String, trap: TrapAt) -> Result<(), AllocError>
    ensures { OnOk result (string_bytes text.new ≡ string_bytes text.old ++ spec.trap_text trap) }
{
    let word = trap.kind.word();
    writeln!(
        text,
        "trap {} task {}.{}",
        word, trap.task.core, trap.task.number
    )?;
    Ok(())
}
