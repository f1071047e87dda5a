//! Worked rows of the next action, the object call and the plain step, proved on the definitions.
ghost use Rattle.gr_lang.specs.StepRows as rows;

/// A program that prints 7: its next action, its one complete history, and two that aren't legal.
pub fn seven_rows()
    ensures next { rows.SevenIsNext }
    ensures complete { rows.SevenIsComplete }
    ensures eight { rows.EightIsNotLegal }
    ensures over { rows.OverIsNotLegal }
{}

/// A call of a word whose reply is printed, and the traps of a zero divisor and of the step limit.
pub fn call_rows()
    ensures counter { rows.CounterIsComplete }
    ensures divided { rows.DividedIsTrapped }
    ensures forever { rows.ForeverIsTrapped }
{}

/// A finish with a task under it, and a loop of one index: neither is passed before that has ended.
pub fn scope_rows()
    ensures finish { rows.FinishIsComplete }
    ensures pass { rows.PassIsNotLegal }
    ensures looped { rows.LoopIsComplete }
    ensures open { rows.LoopIsNotPassed }
{}

/// Each kind of object call once.
pub fn object_rows()
    ensures words { rows.WordCalls }
    ensures sets { rows.SetCalls }
    ensures maps { rows.MapCalls }
    ensures vectors { rows.VectorCalls }
    ensures heap { rows.HeapCalls }
{}
