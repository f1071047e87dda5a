//! The law, the contract of a function that does nothing.
ghost use Rattle.gr_stands_turns.specs.Laws as laws;

/// The calls of a turn of which nothing is left are made in their order, and their tasks go on.
pub fn turns_finish()
    ensures { laws.TurnsFinish }
{}
