//! The laws, each the contract of a function that does nothing.
ghost use Rattle.gr_stands_opening.specs.Laws as laws;

/// Each place of an object of a program has an address of its own.
pub fn programs_are_sound()
    ensures { laws.ProgramsAreSound }
{}

/// Before its first step the machine stands for the opening state.
pub fn openings_stand()
    ensures { laws.OpeningsStand }
{}
