//! The limit of a task.

/// The most blocks, argument lists, brackets and signs `!` that stand inside one another, a task's body counted.
pub const MAX_NESTING: usize = 64;
