//! The laws, each the contract of a function that does nothing.
ghost use Rattle.gr_lines_others.specs.Laws as laws;

/// A Run leaves lines, of a task that makes no call on a vector or of a unit that is taken up.
pub fn tasks_leave_lines()
    ensures tasks { laws.TasksLeaveLines }
    ensures units { laws.UnitsLeaveLines }
{}

/// So does a message that is of no turn.
pub fn messages_leave_lines()
    ensures { laws.MessagesLeaveLines }
{}

/// So do calls that go off as batches, gifts, and questions for work.
pub fn closes_leave_lines()
    ensures batches { laws.BatchesLeaveLines }
    ensures gifts { laws.GiftsLeaveLines }
    ensures asks { laws.QuestionsLeaveLines }
{}
