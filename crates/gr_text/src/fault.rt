//! Why a text has no tokens.
use std::alloc::AllocError;
use thiserror::Error;

/// Why a text has no tokens. Each place is in bytes from the start of the text, and it is the first place of a fault.
#[derive(Debug, Drop, Error)]
pub enum TextError {
    /// A byte outside comments that begins no token and is no white space.
    #[error("bad byte")]
    BadByte { at: u64 },
    /// The first digit of a number above 2^64 - 1.
    #[error("number too wide")]
    NumberTooWide { at: u64 },
    /// The first byte of a name of more than 32 bytes.
    #[error("name too long")]
    NameTooLong { at: u64 },
    /// There is no memory for the tokens.
    #[error("out of memory")]
    OutOfMemory,
}

impl From<AllocError> for TextError {
    ghost use Rattle.std.specs.Prelude.{◌≡◌};
    ghost use Rattle.gr_text.specs.declared.fault.TextError.TheVariants as faults;

    ghost from_gives = { λ _ e. e ≡ faults.OutOfMemory };

    fn from(_error: AllocError) -> TextError {
        TextError::OutOfMemory
    }
}
