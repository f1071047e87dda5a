//! Worked rows, the contract of a function that does nothing.
ghost use Rattle.gr_task.specs.Rows as rows;

/// The states of a task at two points, and whether it waits.
pub fn task_rows()
    ensures arrive { rows.AtArrive }
    ensures past { rows.PastPoints }
    ensures goes_on { rows.GoesOn }
    ensures waits { rows.Waits }
{}
