//! The laws, each the contract of a function that does nothing.
ghost use Rattle.gr_shares_rows.specs.Laws as laws;

/// Actions that open no loop, messages of no chunk and no question, ends of turns and Closes leave the work of their
/// core.
pub fn rows_leave_work()
    ensures actions { laws.ActionsLeaveWork }
    ensures messages { laws.MessagesLeaveWork }
    ensures ends { laws.TurnEndsLeaveWork }
    ensures closes { laws.ClosesLeaveWork }
{}

/// The entries of their marks leave what is left of each loop, and so does a loop over nothing.
pub fn marks_leave_loops()
    ensures any { laws.MarksLeaveLoops }
    ensures empty { laws.EmptyLoopsLeaveLoops }
{}
