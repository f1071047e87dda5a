//! The laws, each the contract of a function that does nothing.
ghost use Rattle.gr_lines_tokens.specs.Laws as laws;

/// A message that asks for a turn, grants it or ends it is acted on, where it comes.
pub fn tokens_are_served()
    ensures { laws.TokensAreServed }
{}

/// A message that is acted on keeps whose turn it is, and so do calls that go off, and the end of a turn.
pub fn events_keep_turns()
    ensures messages { laws.MessagesKeepTurns }
    ensures closes { laws.ClosesKeepTurns }
    ensures ends { laws.EndsKeepTurns }
{}
