// What a source and a sink of bytes promise. Each tells two things: its content, where it knows
// that, and how many faults it had.
ghost use Rattle.std.specs.Prelude.{ℕ, List, Option};
ghost use Rattle.std.specs.Io.{ReadsAtMost};
ghost use Rattle.std.specs.Io.KnownBytes.{ReadConsumes, WriteAppends};
ghost use Rattle.gr_io.specs.Faults.{HasCause, CountsFault};
ghost use Rattle.gr_io.specs.Amounts.{TakesSome};

use thiserror::Error;

/// A read or a write failed, and the device counted a fault. It moved no byte.
#[derive(Clone, Copy, Debug, PartialEq, Eq, Error)]
#[error("the device failed")]
pub struct Failed;

/// Where bytes come from.
///
/// It tells the bytes that are left, unless it can't know them, and a count of its faults: the
/// reads that failed, up to the last `u64`.
pub trait Source {
    // the bytes that reads will give from here on, where the source knows them
    ghost left: { Self → Option (List ℕ) };

    // how many of its reads failed
    ghost faults: { Self → ℕ };

    /// Reads into the front of `buf`, and answers how many bytes it gave there: the first of those
    /// left, and the rest stays left.
    ///
    /// `Ok(0)` for a `buf` that isn't empty is the end of the input.
    ///
    /// # Errors
    ///
    /// `Failed` counts one fault, and what is left stays. A read that succeeds counts none.
    fn read(&mut self, buf: &mut [u8]) -> Result<usize, Failed>
        ensures bound { ReadsAtMost result buf.new }
        ensures bytes { ReadConsumes (left self.old) (left self.new) result buf.new }
        ensures cause { HasCause (faults self.old) (faults self.new) result }
        ensures counted { CountsFault (faults self.old) (faults self.new) result };
}

/// Where bytes go.
///
/// It tells the bytes that it got, unless it can't know them, and a count of its faults: the
/// writes that failed, up to the last `u64`.
pub trait Sink {
    // the bytes that it got, where the sink knows them
    ghost got: { Self → Option (List ℕ) };

    // how many of its writes failed
    ghost faults: { Self → ℕ };

    /// Adds bytes from the front of `piece` to those that it got, and answers how many: at least
    /// one where `piece` isn't empty.
    ///
    /// # Errors
    ///
    /// `Failed` counts one fault, and what it got stays. A write that succeeds counts none.
    fn write(&mut self, piece: &[u8]) -> Result<usize, Failed>
        ensures bound { TakesSome result piece.now }
        ensures bytes { WriteAppends (got self.old) (got self.new) result piece.now }
        ensures cause { HasCause (faults self.old) (faults self.new) result }
        ensures counted { CountsFault (faults self.old) (faults self.new) result };
}
