//! The laws, each the contract of a function that does nothing.
ghost use Rattle.gr_elements_acts.specs.Laws as laws;

/// A message of an element finds something to act on.
pub fn elements_are_served()
    ensures { laws.ElementsAreServed }
{}

/// Each message keeps where words are, and so does the end of a turn, which replies what the plain memory does.
pub fn events_keep_elements()
    ensures messages { laws.MessagesKeepElements }
    ensures ends { laws.EndsKeepElements }
    ensures replies { laws.TurnsReply }
{}
