//! Why words give no options.
use std::alloc::AllocError;
use thiserror::Error;

/// Why words give no options.
#[derive(Clone, Copy, Debug, PartialEq, Eq, Error)]
pub enum OptionsError {
    /// The words are no command line.
    #[error("the words are no command line")]
    Usage,
    /// No memory was left to read the words.
    #[error("out of memory")]
    OutOfMemory,
}

impl From<AllocError> for OptionsError {
    ghost use Rattle.std.specs.Prelude.{◌≡◌};
    ghost use Rattle.gr_cli.specs.declared.error.OptionsError.TheVariants as error;

    ghost from_gives = { λ _ e. e ≡ error.OutOfMemory };

    fn from(_error: AllocError) -> OptionsError {
        OptionsError::OutOfMemory
    }
}
