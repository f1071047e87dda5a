//! Laws of histories for what is built above, and a worked row, each the contract of a function that does
//! nothing.
ghost use Rattle.gr_plain.specs.Laws.{AfterOneMore};
ghost use Rattle.gr_plain.specs.PrintRows.{SevenIsPrinted};

/// The state after a history and one more entry is one step on from the state after the history.
pub fn after_one_more()
    ensures { AfterOneMore }
{}

/// Of a program that prints 7, first the print is due, then the end of main, and then nothing.
pub fn seven_is_printed()
    ensures { SevenIsPrinted }
{}
