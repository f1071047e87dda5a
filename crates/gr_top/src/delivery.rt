//! The one place that writes.
ghost use Rattle.std.specs.Prelude.{◌≡◌, ◌≢◌, ℕ, is_some};
ghost use Rattle.gr_io.specs.Faults.{Rose};
ghost use Rattle.gr_top.specs.AnswerView.{made};
ghost use Rattle.gr_top.specs.Due.{Came, IsWritten};
ghost use Rattle.gr_top.specs.Promises.{CountsWrites, status_of};

use crate::answer::{Answer, Refusal, RunEnd};
use gr_io::{Sink, write_all};

/// The exit status that goes with a refusal.
pub(crate) fn status(refusal: Refusal) -> u8
    ensures { result ≡ status_of refusal }
{
    match refusal {
        Refusal::Nothing => 0,
        Refusal::Refused { .. } => 1,
        Refusal::Usage => 2,
        Refusal::Trap { .. } => 3,
        Refusal::ReadFault => 4,
        Refusal::WriteFault { .. } => 5,
        Refusal::Memory => 6,
        Refusal::EventLimit { .. } => 7,
        Refusal::TooLong => 8,
        Refusal::NotLegal { .. } => 9,
        Refusal::BadLine { .. } => 10,
        Refusal::Stalled => 11,
    }
}

/// Writes an answer. It takes no memory.
pub(crate) fn deliver<K: Sink>(sink: &mut K, answer: Answer) -> RunEnd
    requires { IsWritten answer.refusal }
    ensures came { Came (made answer) (K.got sink.old) (K.got sink.new)
        result.refusal result.world }
    ensures not_read_fault { result.refusal ≢ Refusal.ReadFault }
    ensures not_memory { result.refusal ≢ Refusal.Memory }
    ensures status { result.status ≡ status_of result.refusal }
    ensures world { result.world ≡ answer.world }
    ensures fault { (written : ℕ) → result.refusal ≡ Refusal.WriteFault written
        → Rose (K.faults sink.old) (K.faults sink.new) }
    ensures given { ((written : ℕ) → result.refusal ≢ Refusal.WriteFault written)
        → result.refusal ≡ answer.refusal }
    ensures counted { CountsWrites result.refusal (K.faults sink.old) (K.faults sink.new) }
{
    let Answer {
        refusal,
        text,
        world,
    } = answer;
    let wrote = write_all(sink, text.as_slice());
    let refusal = match wrote {
        Ok(()) => refusal,
        Err(fault) => Refusal::WriteFault {
            written: fault.written,
        },
    };
    RunEnd {
        status: status(refusal),
        refusal,
        world,
    }
}
