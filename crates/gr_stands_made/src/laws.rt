//! The law, the contract of a function that does nothing.
ghost use Rattle.gr_stands_made.specs.Laws as laws;

/// Each step is made of pieces, by its event: outcomes of one core one after another, or messages that move.
pub fn steps_are_made()
    ensures { laws.StepsAreMade }
{}
