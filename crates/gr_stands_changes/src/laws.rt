//! The laws, each the contract of a function that does nothing.
ghost use Rattle.gr_stands_changes.specs.Laws as laws;

/// One task in a slot becomes another, in the plain state as well; or all tasks stay.
pub fn changes_are_kept()
    ensures slot { laws.SlotChangesAreKept }
    ensures leaves { laws.LeavingIsKept }
{}

/// Messages that tell of no task change none.
pub fn quiet_messages_are_served()
    ensures served { laws.QuietMessagesAreServed }
    ensures steals { laws.StealsAreAsked }
    ensures gift { laws.GiftsAreTaken }
    ensures splits { laws.ChunksAreSplit }
{}
