//! The laws of mails, each the contract of a function that does nothing.
ghost use Rattle.gr_mail.specs.Laws.{JoinedStay, KnownIsReceived, ReceivedIsSent};

/// What a core has received from another that it has met is the first of what was sent. What was received and what
/// is known only grow together.
pub fn packets_keep_their_order()
    ensures sent { ReceivedIsSent }
    ensures known { KnownIsReceived }
{}

/// Two cores of the same mailboxes stay that.
pub fn mails_stay_joined()
    ensures { JoinedStay }
{}
