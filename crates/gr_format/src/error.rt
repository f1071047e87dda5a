//! Why bytes aren't read.
ghost use Rattle.std.specs.Prelude.{◌≡◌};
ghost use Rattle.gr_format.specs.declared.error.FormatError.TheVariants as error;

use std::alloc::{AllocError, AllocFailed};

/// Why bytes aren't read.
#[derive(Debug, Drop)]
pub enum FormatError {
    /// A number is cut off or out of its range, and from its first byte on so many bytes are left.
    Fault { left: usize },
    /// There is no memory for what is read.
    OutOfMemory,
}

impl From<AllocError> for FormatError {
    ghost from_gives = { λ _ e. e ≡ error.OutOfMemory };

    fn from(_error: AllocError) -> FormatError {
        FormatError::OutOfMemory
    }
}

impl<T: Drop> From<AllocFailed<T>> for FormatError {
    ghost from_gives = { λ _ e. e ≡ error.OutOfMemory };

    fn from(_error: AllocFailed<T>) -> FormatError {
        FormatError::OutOfMemory
    }
}
