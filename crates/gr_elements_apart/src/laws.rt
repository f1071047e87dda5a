//! The laws, each the contract of a function that does nothing.
ghost use Rattle.gr_elements_apart.specs.Laws as laws;

/// A task that acts leaves where words of vectors are, and so does a unit that is taken up.
pub fn runs_leave_words()
    ensures tasks { laws.TasksLeaveWords }
    ensures units { laws.UnitsLeaveWords }
{}

/// So does a message that is not of the vector's elements, and the end of a turn of another.
pub fn messages_leave_words()
    ensures messages { laws.MessagesLeaveWords }
    ensures ends { laws.EndsLeaveElements }
    ensures nothing { laws.NothingLeavesWords }
{}

/// So do calls that go off, gifts, and questions for work.
pub fn closes_leave_words()
    ensures closes { laws.ClosesLeaveWords }
    ensures gifts { laws.GiftsLeaveWords }
    ensures questions { laws.QuestionsLeaveWords }
{}
