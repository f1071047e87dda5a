//! The laws, each the contract of a function that does nothing.
ghost use Rattle.gr_lines_calls.specs.Laws as laws;

/// A task that acts keeps the lines of its core, and so do calls that go off.
pub fn calls_keep_lines()
    ensures tasks { laws.TasksKeepLines }
    ensures closes { laws.ClosesKeepLines }
{}

/// So does a message, and the end of a turn behind it.
pub fn messages_keep_lines()
    ensures messages { laws.MessagesKeepLines }
    ensures ends { laws.TurnsKeepLines }
{}
