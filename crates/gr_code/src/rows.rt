//! Worked rows, each the contract of a function that does nothing.
ghost use Rattle.gr_code.specs.Rows as rows;

/// Names by number, targets, and the words of terms.
pub fn term_rows()
    ensures second { rows.SecondIsOne }
    ensures none { rows.NoneIsTwo }
    ensures left { rows.SecondIsLeft }
    ensures difference { rows.DifferenceWraps }
    ensures zero { rows.ZeroDivides }
{}

/// What instructions do, and where they lead.
pub fn instruction_rows()
    ensures grain { rows.GrainIsOne }
    ensures ends { rows.LoopEnds }
    ensures body { rows.LoopGoesOn }
    ensures stays { rows.EndStays }
{}

/// The shapes of a program's objects.
pub fn shape_rows()
    ensures objects { rows.ShapesAreThree }
    ensures heap { rows.HeapIsLast }
{}
