//! The top call.
ghost use Rattle.std.specs.Prelude.{List, String, ◌≡◌, ◌≢◌, ℕ, ◌+◌, ◌≤◌, ◌⊎◌, IfOk, IsErrOf, IfSome, Some, None, false, length, true};
ghost use Rattle.std.specs.Io.KnownBytes.{Keeps, Consumes};
ghost use Rattle.gr_cli.specs.Options.{IsWithinLimits};
ghost use Rattle.gr_io.specs.Amounts.{ConsumesAtMost};
ghost use Rattle.gr_io.specs.Faults.{Rose};
ghost use Rattle.gr_top.specs.Readings.{IsDue};
ghost use Rattle.gr_top.specs.Due.{IsWritten};
ghost use Rattle.gr_top.specs.Counts.{CountsStop};
ghost use Rattle.gr_top.specs.Commands.{asked as asked_of, is_read as reads_source, limit_of};
ghost use Rattle.gr_top.specs.Promises.{IsUnread, status_of, CountsReads, CountsWrites, AnsweredSome, AnswersChecks, AnswersRefused, AnswersReplays, AnswersRuns, BadLineWhere, IsTooLong, NotLegalWhere, RanWell, RefusedWhere, Answered, IsWorldOf, IsDelivered, IsRetold};
ghost use Rattle.gr_top.specs.AnswerView.{made};

use crate::answer::{Answer, Refusal, RunEnd};
use crate::command::{asked, is_read, is_replay, source_limit};
use crate::delivery::deliver;
use crate::engine::{run_text, said};
use crate::replaying::replay_source;
use crate::texts::USAGE;
use gr_cli::Options;
use gr_gen::bench;
use gr_io::{ReadAllError, Sink, Source, read_all};
use gr_reduce::Reducers;
use gr_round::Gate;
use std::alloc::{AllocError, Global};
use std::thread::Threads;

/// Why there is no answer to write.
#[derive(Clone, Copy)]
enum Stop {
    ReadFault,
    Memory,
}

impl From<AllocError> for Stop {
    ghost use Rattle.std.specs.Prelude.{◌≡◌};
    ghost use Rattle.gr_top.specs.declared.call.Stop.TheVariants as stop;

    ghost from_gives = { λ _ e. e ≡ stop.Memory };

    fn from(_error: AllocError) -> Stop {
        Stop::Memory
    }
}

/// The answer to a command on the bytes of its source.
fn answer_to<R: Threads + Sync, G: Gate>(
    rt: &R,
    alloc: Global,
    options: &Options,
    bytes: &[u8],
    reducers: &Reducers,
    gate: &G,
) -> Result<Answer, AllocError>
    requires limits { IsWithinLimits options.now }
    requires reads { reads_source options.now.command ≡ true }
    requires few { length bytes.now ≤ limit_of options.now.command }
    ensures due { IfOk result (λ a. (words : List (String Global))
        → asked_of words ≡ Some options.now → IsDue words bytes.now a.world (made a)) }
    ensures world { IfOk result (λ a. (words : List (String Global))
        → asked_of words ≡ Some options.now → IsWorldOf words bytes.now a.world) }
    ensures written { IfOk result (λ a. IsWritten a.refusal) }
{
    if is_replay(options.command) {
        let answer = replay_source(alloc, bytes)?;
        Ok(answer)
    } else {
        let answer = run_text(rt, alloc, options, bytes, reducers, gate)?;
        Ok(answer)
    }
}

/// The answer to a bench, whatever its source holds.
fn answer_to_bench<R: Threads + Sync, G: Gate>(
    rt: &R,
    alloc: Global,
    options: &Options,
    reducers: &Reducers,
    gate: &G,
) -> Result<Answer, AllocError>
    requires limits { IsWithinLimits options.now }
    requires bench { reads_source options.now.command ≡ false }
    ensures due { IfOk result (λ a. (words : List (String Global)) (bytes : List ℕ)
        → asked_of words ≡ Some options.now → IsDue words bytes a.world (made a)) }
    ensures world { IfOk result (λ a. (words : List (String Global)) (bytes : List ℕ)
        → asked_of words ≡ Some options.now → IsWorldOf words bytes a.world) }
    ensures written { IfOk result (λ a. IsWritten a.refusal) }
{
    let text = bench(alloc, options.kind, options.size, options.seed)?;
    let answer = run_text(rt, alloc, options, text.as_slice(), reducers, gate)?;
    Ok(answer)
}

/// The answer to words and a source.
fn answer<R: Threads + Sync, S: Source, G: Gate>(
    rt: &R,
    alloc: Global,
    words: &[String],
    reducers: &Reducers,
    source: &mut S,
    gate: &G,
) -> Result<Answer, Stop>
    ensures due { IfOk result (λ a. IfSome (S.left source.old)
        (λ bytes. IsDue words.now bytes a.world (made a))) }
    ensures world { IfOk result (λ a. IfSome (S.left source.old)
        (λ bytes. IsWorldOf words.now bytes a.world)) }
    ensures some_bytes { IfOk result (λ a. (bytes : List ℕ)
        × Consumes (S.left source.old) (S.left source.new) bytes
        × IsDue words.now bytes a.world (made a) × IsWorldOf words.now bytes a.world) }
    ensures written { IfOk result (λ a. IsWritten a.refusal) }
    ensures unread { IsUnread (asked_of words.now) → source.new ≡ source.old }
    ensures within { IfSome (asked_of words.now)
        (λ o. ConsumesAtMost (S.left source.old) (S.left source.new) (limit_of o.command + 1)) }
    ensures fault { IsErrOf result Stop.ReadFault
        → Rose (S.faults source.old) (S.faults source.new) }
    ensures later { S.faults source.old ≤ S.faults source.new }
    ensures counted { CountsStop (S.faults source.old) (S.faults source.new) result }
{
    let Some(options) = asked(alloc, words)? else {
        let answer = said(alloc, Refusal::Usage, USAGE)?;
        return Ok(answer);
    };
    if !is_read(options.command) {
        let answer = answer_to_bench(rt, alloc, &options, reducers, gate)?;
        return Ok(answer);
    }
    let read = read_all(alloc, source, source_limit(options.command));
    match read {
        Ok(bytes) => {
            let answer = answer_to(rt, alloc, &options, bytes.as_slice(), reducers, gate)?;
            Ok(answer)
        }
        Err(ReadAllError::ReadFault) => Err(Stop::ReadFault),
        Err(ReadAllError::OutOfMemory) => Err(Stop::Memory),
        Err(ReadAllError::TooLong) => {
            let answer = said(alloc, Refusal::TooLong, "input too long\n")?;
            Ok(answer)
        }
    }
}

/// One command, from the words of the command line and the bytes of a source to the bytes of a sink.
///
/// The words are those of `gr_cli::options`. `run` and `check` read a program's text, of at most
/// [`gr_io::MAX_PROGRAM`] bytes; `replay` reads a program's text, a line that is exactly `---`, and a history
/// text, of at most [`gr_io::MAX_REPLAY`] bytes together; `bench` makes its own program, and so reads nothing, as
/// words that are refused do. A program is run on as many worker threads as the words say there are cores. All texts,
/// refusals included, go to the sink, and all memory is taken before the first write. At the gate each core is told
/// of each turn before it looks for its next event.
pub fn top<R: Threads + Sync, S: Source, K: Sink, G: Gate>(
    rt: &R,
    alloc: Global,
    words: &[String],
    reducers: Reducers,
    source: &mut S,
    sink: &mut K,
    gate: &G,
) -> RunEnd
    // What comes is the answer due for the words, the bytes of the source and the run that is kept.
    ensures answer { IfSome (S.left source.old) (λ bytes.
        Answered words.now bytes (K.got sink.old) (K.got sink.new) result.refusal result.world) }

    // That run is one of the text's program on the machine of the words, and its history is legal.
    ensures history { IfSome (S.left source.old) (λ bytes. IsWorldOf words.now bytes result.world) }
    ensures retold { IfSome (S.left source.old) (λ bytes. IsRetold words.now bytes result.world) }

    // Where the source doesn't tell what it holds, it gave bytes that are answered so.
    ensures some_bytes { IsDelivered result.refusal → AnsweredSome words.now (S.left source.old)
        (S.left source.new) (K.got sink.old) (K.got sink.new) result.refusal result.world }

    // The headline: at status 0 the run that the threads made, whatever their schedule, is legal and complete, and
    // the sink got its prints and contents. Nothing tests that at run time: it is proved of every run.
    ensures headline { result.status ≡ 0 → IfSome (S.left source.old) (λ bytes.
        RanWell words.now bytes (K.got sink.old) (K.got sink.new) result.world) }

    // Nothing but memory and faults stands between a program or a history and its answer.
    ensures checks { IfSome (S.left source.old) (AnswersChecks words.now result.status
        (Rose (S.faults source.old) (S.faults source.new)) (Rose (K.faults sink.old) (K.faults sink.new))) }
    ensures runs { IfSome (S.left source.old) (AnswersRuns words.now result.status
        (Rose (S.faults source.old) (S.faults source.new)) (Rose (K.faults sink.old) (K.faults sink.new))) }
    ensures replays { IfSome (S.left source.old) (AnswersReplays words.now result.status
        (Rose (S.faults source.old) (S.faults source.new)) (Rose (K.faults sink.old) (K.faults sink.new))) }
    ensures refuses { IfSome (S.left source.old) (AnswersRefused words.now result.refusal
        (Rose (S.faults source.old) (S.faults source.new)) (Rose (K.faults sink.old) (K.faults sink.new))) }

    // With no answer and no fault of the sink it isn't asked; at most one byte too many is read.
    ensures silent { (result.refusal ≡ Refusal.Memory) ⊎ (result.refusal ≡ Refusal.ReadFault)
        → Keeps (K.got sink.old) (K.got sink.new) × (result.world ≡ None) }
    ensures untouched { (result.refusal ≡ Refusal.Memory) ⊎ (result.refusal ≡ Refusal.ReadFault)
        → sink.new ≡ sink.old }
    ensures within { IfSome (asked_of words.now) (λ options.
        ConsumesAtMost (S.left source.old) (S.left source.new) (limit_of options.command + 1)) }

    // When each refusal comes; a fault of the source or of the sink is told, and counted once.
    ensures usage { result.refusal ≡ Refusal.Usage → asked_of words.now ≡ None }
    ensures unread { IsUnread (asked_of words.now) → source.new ≡ source.old }
    ensures too_long { result.refusal ≡ Refusal.TooLong
        → IfSome (S.left source.old) (IsTooLong words.now) }
    ensures refused { IfSome (S.left source.old) (RefusedWhere words.now result.refusal) }
    ensures not_legal { IfSome (S.left source.old) (NotLegalWhere result.refusal) }
    ensures bad_line { IfSome (S.left source.old) (BadLineWhere result.refusal) }
    ensures read_fault { CountsReads result.refusal (S.faults source.old) (S.faults source.new) }
    ensures write_fault { CountsWrites result.refusal (K.faults sink.old) (K.faults sink.new) }
    ensures status { result.status ≡ status_of result.refusal }
{
    let found = answer(rt, alloc, words, &reducers, source, gate);
    match found {
        Ok(answer) => deliver(sink, answer),
        Err(Stop::ReadFault) => RunEnd {
            status: 4,
            refusal: Refusal::ReadFault,
            world: None,
        },
        Err(Stop::Memory) => RunEnd {
            status: 6,
            refusal: Refusal::Memory,
            world: None,
        },
    }
}
