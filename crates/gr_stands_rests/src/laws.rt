//! The laws, each the contract of a function that does nothing.
ghost use Rattle.gr_stands_rests.specs.Laws as laws;

use gr_fits_scopes::work_is_done;

/// Where the root is passed each task has ended, and so no turn has calls: vectors rest.
pub fn passed_runs_rest()
    ensures { laws.PassedRunsRest }
{
    work_is_done();
}

/// In each run a turn puts words only where the plan of its calls puts some.
pub fn runs_put_as_planned()
    ensures { laws.RunsPutAsPlanned }
{}
