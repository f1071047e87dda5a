// Reading a whole source, and writing a whole text to a sink.
ghost use Rattle.std.specs.Prelude.{◌≡◌, ℕ, ◌+◌, ◌-◌, ◌<◌, ◌≤◌, take, length, vec_len, IfOk, OnOk, IfErr, OnErr, IfSome, IsErrOf};
ghost use Rattle.std.specs.Io.KnownBytes.{Appends, Consumes, IsAtEnd};
ghost use Rattle.gr_io.specs.Faults.{HasCause, CountsFault, CountsReadFault, Rose};
ghost use Rattle.gr_io.specs.Amounts.{ConsumesAtMost, ConsumesExactly, ConsumesSome};

use crate::device::{Sink, Source};
use std::alloc::{AllocError, Global};
use thiserror::Error;

#[cfg(test)]
mod tests;

/// Why `read_all` gives no bytes.
#[derive(Clone, Copy, Debug, PartialEq, Eq, Error)]
pub enum ReadAllError {
    /// A read failed, and the source counted a fault.
    #[error("a read failed")]
    ReadFault,
    /// The source held more bytes than the limit.
    #[error("the input is too long")]
    TooLong,
    /// No memory was left for the bytes.
    #[error("out of memory")]
    OutOfMemory,
}

impl From<AllocError> for ReadAllError {
    ghost use Rattle.std.specs.Prelude.{◌≡◌};
    ghost use Rattle.gr_io.specs.declared.whole.ReadAllError.TheVariants as error;

    ghost from_gives = { λ _ e. e ≡ error.OutOfMemory };

    fn from(_error: AllocError) -> ReadAllError {
        ReadAllError::OutOfMemory
    }
}

/// The sink failed when it had taken the first `written` bytes.
#[derive(Clone, Copy, Debug, PartialEq, Eq, Error)]
#[error("the sink failed after {written} bytes")]
pub struct WriteFault {
    /// How many of the bytes it had taken, fewer than there were.
    pub written: u64,
}

// The most bytes that one read asks for.
const PIECE: usize = 4096;

/// Reads `source` to its end, where it holds at most `max` bytes, as `MAX_PROGRAM` or `MAX_REPLAY`.
/// It asks for no byte beyond the first `max + 1`.
///
/// # Errors
///
/// `ReadFault` where a read failed, and nowhere else. `TooLong` where `max + 1` bytes were read.
/// `OutOfMemory` where the bytes, one or more and not more than `max`, find no room. The bytes read
/// until then are gone from the source.
pub fn read_all<S: Source>(alloc: Global, source: &mut S, max: u64) -> Result<Vec<u8>, ReadAllError>
    ensures whole { IfOk result (λ bytes.
        Consumes (S.left source.old) (S.left source.new) bytes.items) }
    ensures end { OnOk result (IsAtEnd (S.left source.new)) }
    ensures few { IfOk result (λ bytes. vec_len bytes ≤ max) }

    // What was read where it gives no bytes: `TooLong` comes just where `max + 1` bytes were read.
    ensures too_long { IsErrOf result ReadAllError.TooLong
        → ConsumesExactly (S.left source.old) (S.left source.new) (max + 1) }
    ensures fault_within { IsErrOf result ReadAllError.ReadFault
        → ConsumesAtMost (S.left source.old) (S.left source.new) max }
    ensures memory_within { IsErrOf result ReadAllError.OutOfMemory
        → ConsumesAtMost (S.left source.old) (S.left source.new) max }
    ensures memory_some { IsErrOf result ReadAllError.OutOfMemory
        → ConsumesSome (S.left source.old) (S.left source.new) }

    // What a source that knows its content held.
    ensures all { IfOk result (λ bytes. IfSome (S.left source.old) (λ all. bytes.items ≡ all)) }
    ensures fits { OnOk result (IfSome (S.left source.old) (λ all. length all ≤ max)) }
    ensures too_many { IsErrOf result ReadAllError.TooLong
        → IfSome (S.left source.old) (λ all. max < length all) }

    ensures fault { IsErrOf result ReadAllError.ReadFault
        → Rose (S.faults source.old) (S.faults source.new) }
    ensures later { S.faults source.old ≤ S.faults source.new }
    ensures counted { CountsReadFault (S.faults source.old) (S.faults source.new) result }
{
    let mut bytes = Vec::new(alloc);
    let mut buf = [0u8; PIECE];
    'reads: loop {
        let left = max - bytes.len() as u64;
        // One byte more than the limit leaves shows that the input is too long.
        let want = left.min(PIECE as u64 - 1) as usize + 1;
        match source.read(&mut buf[..want]) {
            Err(_) => return Err(ReadAllError::ReadFault),
            Ok(0) => return Ok(bytes),
            Ok(count) if count as u64 > left => return Err(ReadAllError::TooLong),
            Ok(count) => bytes.extend_from_slice(&buf[..count])?,
        }
    }
}

/// Writes all of `bytes` to `sink`, in as many writes as it asks for. It takes no memory.
///
/// # Errors
///
/// `WriteFault` where a write failed, and nowhere else. The sink got just the first `written`
/// bytes.
pub fn write_all<K: Sink>(sink: &mut K, bytes: &[u8]) -> Result<(), WriteFault>
    ensures all { OnOk result (Appends (K.got sink.old) (K.got sink.new) bytes.now) }
    ensures part { IfErr result (λ fault.
        Appends (K.got sink.old) (K.got sink.new) (take fault.written bytes.now)) }
    ensures short { IfErr result (λ fault. fault.written < length bytes.now) }
    ensures cause { HasCause (K.faults sink.old) (K.faults sink.new) result }
    ensures counted { CountsFault (K.faults sink.old) (K.faults sink.new) result }
{
    let mut at = 0;
    'writes: while at < bytes.len() {
        match sink.write(&bytes[at..]) {
            Err(_) => return Err(WriteFault { written: at as u64 }),
            Ok(count) => at += count,
        }
    }
    Ok(())
}
