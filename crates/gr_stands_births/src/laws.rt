//! The laws, each the contract of a function that does nothing.
ghost use Rattle.gr_stands_births.specs.Laws as laws;

/// A task whose turn it is makes a new one, and a unit starts as a task.
pub fn tasks_are_born()
    ensures turn { laws.FirstsHaveTheirTurn }
    ensures made { laws.SpawnsAreMade }
    ensures started { laws.SinglesStart }
{}

/// A task opens a finish or a loop.
pub fn scopes_open()
    ensures finish { laws.FinishesOpen }
    ensures range { laws.LoopsOpen }
{}
