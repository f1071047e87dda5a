// How long a source may be.

/// The most bytes of a source that holds a program's text, 1048576.
pub const MAX_PROGRAM: u64 = 1 << 20;

/// The most bytes of a source that holds a replay, program and history together, 67108864.
pub const MAX_REPLAY: u64 = 1 << 26;
