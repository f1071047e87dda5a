//! The laws, each the contract of a function that does nothing.
ghost use Rattle.gr_lines_apart.specs.Laws as laws;

/// A task that acts leaves whose turn it is, and so does a unit that is taken up.
pub fn runs_leave_turns()
    ensures tasks { laws.TasksLeaveTurns }
    ensures units { laws.UnitsLeaveTurns }
{}

/// So does a message that is none of the turns of the vector, and the end of a turn of another.
pub fn messages_leave_turns()
    ensures messages { laws.MessagesLeaveTurns }
    ensures ends { laws.EndsLeaveTurns }
    ensures nothing { laws.NothingLeavesTurns }
{}

/// So do calls that go off on another object, gifts, and questions for work.
pub fn closes_leave_turns()
    ensures closes { laws.ClosesLeaveTurns }
    ensures gifts { laws.GiftsLeaveTurns }
    ensures questions { laws.QuestionsLeaveTurns }
{}
