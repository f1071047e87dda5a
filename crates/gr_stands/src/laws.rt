//! The laws of worlds, each the contract of a function that does nothing.
ghost use Rattle.gr_stands.specs.CallActs as calls;
ghost use Rattle.gr_stands.specs.Laws as laws;
ghost use Rattle.gr_stands.specs.WordActs as words;

/// What an outcome at a core does to the bodies, to the messages in flight, and to the tasks and units of a world.
pub fn worlds_flow()
    ensures bodies { laws.OutcomesPutBodies }
    ensures messages { laws.OutcomesFlow }
    ensures tasks { laws.OutcomesMoveTasks }
{}

/// A Ship and a Take leave all bodies, and all that is in flight; so the world stands for the same plain state. Those of
/// the machine are such.
pub fn moves_keep_worlds()
    ensures bodies { laws.MovesKeepBodies }
    ensures messages { laws.MovesKeepFlight }
    ensures stands { laws.MovesKeepStanding }
    ensures ships { laws.ShipsMove }
    ensures takes { laws.TakesMove }
{}

/// An outcome that does what a part asks of it keeps the part.
pub fn parts_are_kept()
    ensures words { words.WordsAreKept }
    ensures no_words { words.WordsStayBehind }
    ensures calls { calls.CallsAreKept }
{}
