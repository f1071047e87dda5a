//! The worked runs, each the contract of a function that does nothing.
ghost use Rattle.gr_machine.specs.BatchRows as batch;
ghost use Rattle.gr_machine.specs.CounterRows as counter;
ghost use Rattle.gr_machine.specs.EnrolRows as enrolled;
ghost use Rattle.gr_machine.specs.LoopRows as looped;
ghost use Rattle.gr_machine.specs.MergeRows as merges;
ghost use Rattle.gr_machine.specs.NestedRows as nested;
ghost use Rattle.gr_machine.specs.ReduceRows as reduced;
ghost use Rattle.gr_machine.specs.RemoteRows as remote;
ghost use Rattle.gr_machine.specs.TrapRows as trapped;
ghost use Rattle.gr_machine.specs.TurnRows as turn;
ghost use Rattle.gr_machine.specs.WaitRows as waits;

/// Runs on one core: a program event by event, three inserts of one key that go off as one batch, a finish in a
/// finish, and a trap.
pub fn runs_on_one_core()
    ensures counter { counter.CounterRun }
    ensures counter_ends { counter.CounterEnds }
    ensures batch { batch.BatchRun }
    ensures batch_ends { batch.BatchEnds }
    ensures trapped { trapped.TrappedRun }
    ensures trapped_ends { trapped.TrappedEnds }
    ensures nested { nested.NestedRun }
    ensures nested_ends { nested.NestedEnds }
{}

/// Runs on two cores: a call whose home is the other core; a finish that waits for a task there; a loop that is split
/// and stolen from; a turn of a vector; tasks that wait for an enrolment; and reduces of which not all fold. The merge
/// of two journals, and the histories of merges.
pub fn runs_on_two_cores()
    ensures remote { remote.RemoteRun }
    ensures remote_ends { remote.RemoteEnds }
    ensures waits { waits.WaitsRun }
    ensures waits_ends { waits.WaitsEnds }
    ensures looped { looped.LoopedRun }
    ensures looped_ends { looped.LoopedEnds }
    ensures turn { turn.TurnRun }
    ensures turn_ends { turn.TurnEnds }
    ensures enrolled { enrolled.EnrolledRun }
    ensures enrolled_ends { enrolled.EnrolledEnds }
    ensures reduced { reduced.ReducedRun }
    ensures reduced_ends { reduced.ReducedEnds }
    ensures enrolled_counts { enrolled.EnrolledCounts }
    ensures merge { merges.RemoteMerge }
    ensures merged { merges.MergesRun }
{}
