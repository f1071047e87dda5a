//! The laws and worked rows, each the contract of a function that does nothing.
ghost use Rattle.gr_format.specs.Laws.{ReadIsSpelled, SpelledIsRead, SpelledOnce};
ghost use Rattle.gr_format.specs.Laws.{SpellingsAreApart, SpellsOne, TakenIsSpelled};
ghost use Rattle.gr_format.specs.Rows as rows;

/// Bytes are read exactly where they spell a value. They spell one at most, and no spelling is the beginning of
/// another.
pub fn formats_are_exact<A>()
    ensures reads { SpelledIsRead A }
    ensures only { ReadIsSpelled A }
    ensures one { SpellsOne A }
    ensures apart { SpellingsAreApart A }
{}

/// Numbers that a format takes spell their value, and a value that tells its numbers has one spelling.
pub fn values_are_spelled_once<A>()
    ensures taken { TakenIsSpelled A }
    ensures once { SpelledOnce A }
{}

/// Worked rows of formats.
pub fn format_rows()
    ensures highest_first { rows.HighestFirst }
    ensures read { rows.TwoAreRead }
    ensures faults { rows.FaultsAreFound }
{}
