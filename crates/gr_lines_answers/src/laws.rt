//! The laws, each the contract of a function that does nothing.
ghost use Rattle.gr_lines_answers.specs.Laws as laws;

/// A turn is that of a group, each of whose calls waits for it; and each gets its reply.
pub fn turns_are_answered()
    ensures groups { laws.TurnsAreOfGroups }
    ensures answers { laws.CallsAreAnswered }
{}
