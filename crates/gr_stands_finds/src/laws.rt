//! The laws, each the contract of a function that does nothing.
ghost use Rattle.gr_stands_finds.specs.Laws as laws;

/// In no run does a message, a unit or a ready slot find nothing to act on.
pub fn nothing_finds_nothing()
    ensures finds { laws.NothingFindsNothing }
    ensures names { laws.MessagesNameVectors }
{}

/// In the event in which a scope comes to have no active core its waiter passes, or the run is over.
pub fn released_at_once()
    ensures leaves { laws.ReleasesAtOnce }
    ensures arrives { laws.ArrivalsPassAtOnce }
{}
