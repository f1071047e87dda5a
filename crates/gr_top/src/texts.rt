//! The texts that are written.
ghost use Rattle.std.specs.Prelude.{◌≡◌, IfOk, string_bytes};
ghost use Rattle.gr_top.specs.Texts as spec;

use gr_syntax::Fault;
use std::alloc::{AllocError, Global};
use std::fmt::Write;

pub(crate) const USAGE: &str =
    "usage: grappa run|check|replay|bench [--cores N] [--block N] [--limit N] [--steps N] [--slice N] [--events N] [--history] [--counts] [--kind WORD] [--size N] [--seed N]\n";

/// What is said of a run in which no core could go on.
pub(crate) const STALLED: &str = "stalled\n";

/// The line that says where a text is refused, and why.
pub(crate) fn refused_text(alloc: Global, fault: Fault) -> Result<String, AllocError>
    ensures { IfOk result (λ text. string_bytes text ≡ spec.refused_text fault) }
{
    let mut text = String::new(alloc);
    let words = fault.kind.words();
    writeln!(
        text,
        "refused line {} column {}: {}",
        fault.at.line, fault.at.column, words
    )?;
    Ok(text)
}

/// What is said of a legal history.
pub(crate) fn legal_text(is_complete: bool) -> &'static str
    ensures { result.now ≡ spec.legal_text is_complete }
{
    if is_complete {
        "legal complete\n"
    } else {
        "legal open\n"
    }
}

/// The line that names the first entry that is no step.
pub(crate) fn not_legal_text(alloc: Global, entry: u64) -> Result<String, AllocError>
    ensures { IfOk result (λ text. string_bytes text ≡ spec.not_legal_text entry) }
{
    let mut text = String::new(alloc);
    writeln!(text, "not legal at entry {entry}")?;
    Ok(text)
}

/// The line that names the first bad line of a history text.
pub(crate) fn bad_line_text(alloc: Global, line: u64) -> Result<String, AllocError>
    ensures { IfOk result (λ text. string_bytes text ≡ spec.bad_line_text line) }
{
    let mut text = String::new(alloc);
    writeln!(text, "bad history line {line}")?;
    Ok(text)
}
