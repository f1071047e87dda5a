//! The laws, each the contract of a function that does nothing.
ghost use Rattle.gr_elements_lines.specs.Laws as laws;

/// Each piece of a step leaves the words of vectors, and the end of a turn makes its calls.
pub fn pieces_keep_words()
    ensures runs { laws.RunsKeepWords }
    ensures serves { laws.ServesKeepWords }
    ensures closes { laws.ClosesKeepWords }
    ensures ends { laws.SettlesKeepWords }
{}
