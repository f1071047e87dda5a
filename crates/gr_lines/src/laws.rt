//! The laws, each the contract of a function that does nothing.
ghost use Rattle.gr_lines.specs.Laws as laws;

/// An outcome after which its core has its lines keeps the part, and so do a Ship and a Take.
pub fn lines_are_kept()
    ensures outcomes { laws.LinesAreKept }
    ensures moves { laws.MovesKeepLines }
{}

/// A core keeps its lines where their vectors stay, and the tasks that wait on them.
pub fn lines_stay()
    ensures stays { laws.LinesStay }
    ensures slot { laws.OtherSlotsChange }
{}

/// Before its first step the machine has the part.
pub fn openings_have_lines()
    ensures { laws.OpeningsHaveLines }
{}
