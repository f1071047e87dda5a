//! The limit of an expression, and the level of the signs that bind least.

/// The most binary signs of an expression, those in brackets counted and those in the arguments of a call not.
pub const MAX_SIGNS: usize = 255;

/// The level of the comparisons, which bind least.
pub const LOOSEST: u8 = 5;
