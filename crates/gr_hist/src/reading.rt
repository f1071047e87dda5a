//! The reader of history texts.
ghost use Rattle.std.specs.Prelude.{◌≡◌, MatchResult, Ok};
ghost use Rattle.gr_hist.specs.Grammar.{IsSameError, Outcome, ReadsLines, ReadsText, SaysError};
ghost use Rattle.gr_hist.specs.LineWords.{IsHeaderAt, IsLineAt, IsNoHeader, IsNoLine};
ghost use Rattle.gr_hist.specs.LineWords.{SaysLine, entry_in, error_at, header_in};
ghost use Rattle.gr_hist.specs.FieldWords.{Gives};

use crate::entries::entry;
use crate::fields::{LineError, cut, fields};
use crate::header::header;
use crate::text::{HistError, HistoryText, NamedEntries, NamedEntry};
use std::alloc::Global;

impl LineError {
    /// This error in that line.
    fn at(self, line: u64) -> HistError
        ensures { result ≡ error_at line self }
    {
        match self {
            LineError::Bad => HistError::BadLine { line },
            LineError::OutOfMemory => HistError::OutOfMemory,
        }
    }
}

/// The entry of a line.
#[tactic(auto, unfolding(crate::specs::LineWords::entry_in))]
fn entry_in(alloc: Global, line: &[u8]) -> Result<NamedEntry, LineError>
    ensures { Gives (entry_in line.now) result }
{
    let fields = fields(alloc, line)?;
    let found = entry(alloc, fields.as_slice())?;
    Ok(found)
}

/// The header of a line.
#[tactic(auto, unfolding(crate::specs::LineWords::header_in))]
fn header_in(alloc: Global, line: &[u8]) -> Result<(u64, u64), LineError>
    ensures { Gives (header_in line.now) result }
{
    let fields = fields(alloc, line)?;
    let found = header(fields.as_slice())?;
    Ok(found)
}

/// The entry of the first line of the text, and the text behind that line.
fn line_at(alloc: Global, text: &[u8]) -> Result<(NamedEntry, &[u8]), LineError>
    ensures { MatchResult result
        (λ found. IsLineAt text.now found.0 found.1.now) (IsNoLine text.now) }
{
    let found = cut(text, b'\n');
    match found {
        Some((line, rest)) => {
            let entry = entry_in(alloc, line)?;
            Ok((entry, rest))
        }
        None => Err(LineError::Bad),
    }
}

/// The numbers of cores and of steps of the first line of the text, and the text behind that line.
fn header_at(alloc: Global, text: &[u8]) -> Result<((u64, u64), &[u8]), LineError>
    ensures { MatchResult result
        (λ found. IsHeaderAt text.now found.0.0 found.0.1 found.1.now) (IsNoHeader text.now) }
{
    let first = cut(text, b'\n');
    match first {
        Some((line, rest)) => {
            let sizes = header_in(alloc, line)?;
            Ok((sizes, rest))
        }
        None => Err(LineError::Bad),
    }
}

/// The entries of the lines from the second on.
fn entries(alloc: Global, text: &[u8]) -> Result<NamedEntries, HistError>
    ensures { MatchResult result (λ lines. ReadsLines 2 text.now (Ok lines)) (SaysLine 2 text.now) }
{
    let mut entries = NamedEntries::new(alloc);
    let mut rest = text;
    let mut line: u64 = 2;
    'each: while !rest.is_empty() {
        let found = line_at(alloc, rest);
        match found {
            Ok((entry, more)) => {
                entries.push(entry)?;
                rest = more;
                line += 1;
            }
            Err(error) => return Err(error.at(line)),
        }
    }
    Ok(entries)
}

/// Reads a history text. `BadLine` names the first line that the grammar doesn't take: line 1 where
/// the text doesn't begin with a header of version 1. `OutOfMemory` says nothing of the text.
pub fn read(alloc: Global, text: &[u8]) -> Result<HistoryText, HistError>
    ensures reads { MatchResult result
        (λ history. ReadsText text.now (Ok history)) (SaysError text.now) }
    ensures only { (outcome : Outcome) → ReadsText text.now outcome
        → MatchResult result (λ history. outcome ≡ Ok history) (IsSameError outcome) }
{
    let found = header_at(alloc, text);
    match found {
        Ok(((cores, steps), rest)) => {
            let lines = entries(alloc, rest)?;
            Ok(HistoryText {
                cores,
                steps,
                lines,
            })
        }
        Err(error) => Err(error.at(1)),
    }
}
