//! The lines that tell of the ends of cores: what each has done, and which came to the limit of events.
ghost use Rattle.std.specs.Prelude.{◌≡◌, ◌++◌, IfOk, OnOk, string_bytes};
ghost use Rattle.gr_report.specs.Ends as spec;

use gr_machine::{CoreEnd, CoreEnds, Counts};
use std::alloc::{AllocError, Global};
use std::fmt::Write;

/// A core that came to the limit of events, and its clock.
#[derive(Clone, Copy)]
pub struct LimitAt {
    pub core: u64,
    pub clock: u64,
}

/// Adds the line that tells of a core that came to the limit of events. An error is want of memory.
pub fn write_limit(text: &mut String, at: LimitAt) -> Result<(), AllocError>
    ensures { OnOk result (string_bytes text.new ≡ string_bytes text.old ++ spec.limit_text at) }
{
    writeln!(text, "limit events core {} clock {}", at.core, at.clock)?;
    Ok(())
}

/// Adds what was called and shipped.
fn write_shipped(text: &mut String, counts: Counts) -> Result<(), AllocError>
    ensures { OnOk result (string_bytes text.new
        ≡ string_bytes text.old ++ spec.shipped_text counts) }
{
    write!(
        text,
        " calls {} messages {} packets {} short {}",
        counts.calls, counts.messages, counts.packets, counts.short
    )?;
    Ok(())
}

/// Adds how often batches went off, work was asked for, and work was given.
fn write_shared(text: &mut String, counts: Counts) -> Result<(), AllocError>
    ensures { OnOk result (string_bytes text.new
        ≡ string_bytes text.old ++ spec.shared_text counts) }
{
    write!(
        text,
        " batches {} asks {} gives {}",
        counts.batches, counts.asks, counts.gives
    )?;
    Ok(())
}

/// Adds the line that tells what a core has done.
fn write_counts(text: &mut String, end: &CoreEnd) -> Result<(), AllocError>
    ensures { OnOk result (string_bytes text.new
        ≡ string_bytes text.old ++ spec.counts_line end.now) }
{
    let core = end.core;
    let counts = end.counts;
    write!(text, "core {core}:")?;
    write_shipped(text, counts)?;
    write_shared(text, counts)?;
    writeln!(text)?;
    Ok(())
}

/// What each core has done, a line for each core in their order. An error is want of memory.
#[tactic(auto, unfolding(crate::specs::Ends::counts_lines))]
pub fn counts_text(alloc: Global, ends: &CoreEnds) -> Result<String, AllocError>
    ensures { IfOk result (λ text. string_bytes text ≡ spec.counts_lines ends.now) }
{
    let mut text = String::new(alloc);
    for end in ends.as_slice() {
        write_counts(&mut text, end)?;
    }
    Ok(text)
}
