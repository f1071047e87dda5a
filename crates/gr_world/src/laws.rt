//! The law of ends, the contract of a function that does nothing.
ghost use Rattle.gr_world.specs.Laws as laws;

use gr_machine::runs_merge;

/// The ends of one run are those of a global run, the merge of their journals, and the merge of their marks tells its
/// history.
#[tactic(auto, using(crate::proofs::Runs::ends_run))]
pub fn ends_are_runs()
    ensures { laws.EndsAreRuns }
{
    runs_merge();
}
