//! The law, the contract of a function that does nothing.
ghost use Rattle.gr_hist.specs.Grammar.{ReadsOnce};

/// A text has at most one reading: one history text, or one first bad line.
pub fn readings_are_unique()
    ensures { ReadsOnce }
{}
