//! The laws, each the contract of a function that does nothing.
ghost use Rattle.gr_elements_steps.specs.Laws as laws;

/// Each piece of a step keeps where the words of vectors are, and the machine opens so.
pub fn pieces_keep_elements()
    ensures runs { laws.RunsKeepElements }
    ensures serves { laws.ServesKeepElements }
    ensures ends { laws.SettlesKeepElements }
    ensures gives { laws.GivesKeepElements }
    ensures closes { laws.CloseKeepsElements }
    ensures asks { laws.AsksKeepElements }
    ensures moves { laws.MovesKeepAll }
    ensures opens { laws.OpeningsHaveAll }
{}

/// A turn of which nothing is left can be finished.
pub fn turns_are_told()
    ensures { laws.EndsAreTold }
{}
