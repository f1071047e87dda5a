//! From a source with a program text and a history text to the verdict on the history.
ghost use Rattle.std.specs.Prelude.{◌≡◌, ℕ, List, string_bytes, IfOk, IsErr, None};
ghost use Rattle.gr_replay.specs.Division.{program_part, history_part};
ghost use Rattle.gr_replay.specs.Judged.{Verdict, Judged};
ghost use Rattle.gr_top.specs.Readings.{ReadsAs, ReplaysAs};
ghost use Rattle.gr_top.specs.Due.{Replayed as Finding, accepted as accepted_as, due_judged, due_replayed, IsWritten};
ghost use Rattle.gr_top.specs.AnswerView.{made};

use crate::answer::{Answer, Refusal};
use crate::engine::{refused, said};
use crate::reading::{TextRead, read_text};
use crate::texts::{bad_line_text, legal_text, not_legal_text};
use gr_accept::Accepted;
use gr_hist::{HistError, HistoryText, read};
use gr_replay::{ReplayError, divide, replay};
use std::alloc::{AllocError, Global};

/// An answer that tells no more than this line.
fn told(refusal: Refusal, line: String) -> Answer
    ensures { (result.refusal ≡ refusal) × (result.text.items ≡ string_bytes line)
        × (result.world ≡ None) }
{
    Answer {
        refusal,
        text: line.into_bytes(),
        world: None,
    }
}

/// The verdict on a history text that was read.
fn judged(alloc: Global, program: &Accepted, text: &HistoryText) -> Result<Answer, AllocError>
    ensures due { IfOk result (λ a. (v : Verdict)
        × Judged program.now text.now.cores text.now.steps text.now.lines v
        × (made a ≡ due_judged v)) }
    ensures world { IfOk result (λ a. a.world ≡ None) }
    ensures written { IfOk result (λ a. IsWritten a.refusal) }
{
    let verdict = replay(alloc, program, text);
    match verdict {
        Ok(replayed) => {
            let answer = said(alloc, Refusal::Nothing, legal_text(replayed.complete))?;
            Ok(answer)
        }
        Err(ReplayError::NotLegal { entry }) => {
            let line = not_legal_text(alloc, entry)?;
            Ok(told(Refusal::NotLegal { entry }, line))
        }
        Err(ReplayError::OutOfMemory) => Err(AllocError),
    }
}

/// The bad line that was found.
fn bad_line(error: HistError) -> Result<u64, AllocError>
    ensures line { IfOk result (λ line. error ≡ HistError.BadLine line) }
    ensures memory { IsErr result → error ≡ HistError.OutOfMemory }
{
    match error {
        HistError::BadLine { line } => Ok(line),
        HistError::OutOfMemory => Err(AllocError),
    }
}

/// The answer to a history text of an accepted program.
fn replayed(alloc: Global, program: &Accepted, history: &[u8]) -> Result<Answer, AllocError>
    ensures due { IfOk result (λ a. (text : List ℕ) → ReadsAs text (accepted_as program.now)
        → (r : Finding) × ReplaysAs text history.now r × (made a ≡ due_replayed r)) }
    ensures world { IfOk result (λ a. a.world ≡ None) }
    ensures written { IfOk result (λ a. IsWritten a.refusal) }
{
    let found = read(alloc, history);
    match found {
        Ok(text) => {
            let answer = judged(alloc, program, &text)?;
            Ok(answer)
        }
        Err(error) => {
            let line = bad_line(error)?;
            let words = bad_line_text(alloc, line)?;
            Ok(told(Refusal::BadLine { line }, words))
        }
    }
}

/// The answer to a source with a program text and a history text, divided by the first line that is `---`.
pub(crate) fn replay_source(alloc: Global, source: &[u8]) -> Result<Answer, AllocError>
    ensures due { IfOk result (λ a. (r : Finding)
        × ReplaysAs (program_part source.now) (history_part source.now) r
        × (made a ≡ due_replayed r)) }
    ensures written { IfOk result (λ a. IsWritten a.refusal) }
    ensures world { IfOk result (λ a. a.world ≡ None) }
{
    let (text, history) = divide(source);
    let found = read_text(alloc, text)?;
    match found {
        TextRead::Accepted { program } => {
            let answer = replayed(alloc, &program, history)?;
            Ok(answer)
        }
        TextRead::Refused { fault } => {
            let answer = refused(alloc, fault)?;
            Ok(answer)
        }
    }
}
