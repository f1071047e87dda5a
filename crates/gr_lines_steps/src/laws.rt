//! The laws, each the contract of a function that does nothing.
ghost use Rattle.gr_lines_steps.specs.Laws as laws;

/// Each piece of a step keeps the calls that wait on vectors.
pub fn pieces_keep_lines()
    ensures { laws.PiecesKeepLines }
{}

/// Each piece of a step keeps whose turn it is; at the end of a turn the words of its vector stand elsewhere.
pub fn pieces_keep_turns()
    ensures runs { laws.RunsKeepTurns }
    ensures serves { laws.ServesKeepTurns }
    ensures ends { laws.SettlesKeepTurns }
    ensures gifts { laws.GivesKeepTurns }
    ensures closes { laws.CloseKeepsTurns }
    ensures questions { laws.AsksKeepTurns }
{}

/// The machine opens with both, and each piece of a step keeps both.
pub fn pieces_keep_both()
    ensures opens { laws.OpeningsHaveBoth }
    ensures kept { laws.PiecesKeepBoth }
{}

/// Behind a message the calls of a turn of its core have their replies.
pub fn ends_are_answered()
    ensures { laws.EndsAreAnswered }
{}
