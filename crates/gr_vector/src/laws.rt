//! The laws and worked rows, each the contract of a function that does nothing.
ghost use Rattle.gr_vector.specs.Laws as laws;
ghost use Rattle.gr_vector.specs.Rows as rows;

/// A group has the calls of which it is made, each as often.
pub fn groups_are_the_calls()
    ensures { laws.GroupsAreTheCalls }
{}

/// The plan of a group leaves the words, and takes out what the replies are made of, as the calls of the group
/// do that are made one after another on the list of the words.
pub fn plans_are_the_calls()
    ensures { laws.PlansAreTheCalls }
{}

/// Turns are granted in the order of asking, and at most one is out.
pub fn turns_are_in_order()
    ensures order { laws.TurnsAreInOrder }
    ensures one { laws.OneTurnIsOut }
{}

/// Worked rows of a group and its plan.
pub fn vector_rows()
    ensures group { rows.FourCalls }
    ensures plan { rows.FourPlanned }
    ensures empty { rows.EmptyPlanned }
{}

/// A worked row of turns.
pub fn turn_rows()
    ensures first { rows.FirstAsks }
    ensures second { rows.SecondAsks }
    ensures next { rows.FirstEnds }
    ensures last { rows.SecondEnds }
{}
