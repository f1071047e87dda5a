//! Why a text is no program.

use thiserror::Error;

/// Why the parser gives no program.
#[derive(Debug, Drop, Error)]
pub enum ParseError {
    /// The first token that continues no program stands here; lines and columns count from 1.
    #[error("unexpected")]
    Unexpected { line: u64, column: u64 },
    /// The text ends here, where no program ends.
    #[error("unexpected end")]
    UnexpectedEnd { line: u64, column: u64 },
    /// There was no memory.
    #[error("out of memory")]
    OutOfMemory,
}
