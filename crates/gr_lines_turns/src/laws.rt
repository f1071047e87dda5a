//! The laws, each the contract of a function that does nothing.
ghost use Rattle.gr_lines_turns.specs.Laws as laws;

/// An outcome that does what the part asks of it keeps the part, and so do a Ship and a Take.
pub fn turns_are_kept()
    ensures outcomes { laws.TurnsAreKept }
    ensures still { laws.OthersKeepTurns }
    ensures moves { laws.MovesKeepTurns }
{}

/// Before its first step the machine has the part.
pub fn openings_have_turns()
    ensures { laws.OpeningsHaveTurns }
{}
