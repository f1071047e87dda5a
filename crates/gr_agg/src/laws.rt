//! The laws of messages that are added together, each the contract of a function that does nothing.
ghost use Rattle.gr_agg.specs.Laws.{MessagesAreWeighed, MessagesStayGood};

/// A sum over messages is that of what was added to them, and what is true of each message that was added is true of
/// each that waits, where this is so of Completes that are added together.
pub fn messages_are_added()
    ensures sums { MessagesAreWeighed }
    ensures each { MessagesStayGood }
{}
