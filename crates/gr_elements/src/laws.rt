//! The laws, each the contract of a function that does nothing.
ghost use Rattle.gr_elements.specs.Laws as laws;

/// An outcome that does what the part asks of it keeps the part, and so do a Ship and a Take.
pub fn elements_are_kept()
    ensures outcomes { laws.ElementsAreKept }
    ensures still { laws.OthersKeepElements }
    ensures moves { laws.MovesKeepElements }
    ensures own { laws.OutcomesKeepOwn }
    ensures moves_own { laws.MovesKeepOwn }
{}

/// Before its first step the machine has the part.
pub fn openings_have_elements()
    ensures elements { laws.OpeningsHaveElements }
    ensures own { laws.OpeningsHaveOwn }
{}
