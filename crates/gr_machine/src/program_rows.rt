//! The programs of the worked runs.
ghost use Rattle.gr_machine.specs.ProgramRows as rows;

/// The histories that runs tell are legal for their programs, and complete but for that of a trap; and the scripts that
/// the tasks of the runs play are what the programs do.
pub fn programs_of_runs()
    ensures counter { rows.CounterIsComplete }
    ensures counter_script { rows.CounterPlays }
    ensures remote { rows.RemoteIsComplete }
    ensures remote_script { rows.RemotePlays }
    ensures waits { rows.WaitsIsComplete }
    ensures waits_script { rows.WaitsPlay }
    ensures loop_script { rows.LoopedPlays }
    ensures batch { rows.BatchIsComplete }
    ensures batch_script { rows.BatchPlays }
    ensures turn { rows.TurnIsComplete }
    ensures turn_script { rows.TurnPlays }
    ensures enrolled { rows.EnrolledIsComplete }
    ensures enrolled_script { rows.EnrolledPlays }
    ensures reduced { rows.ReducedIsComplete }
    ensures reduced_script { rows.ReducedPlays }
    ensures nested { rows.NestedIsComplete }
    ensures nested_script { rows.NestedPlays }
    ensures trapped { rows.TrappedIsLegal }
    ensures trapped_script { rows.TrappedPlays }
{}
