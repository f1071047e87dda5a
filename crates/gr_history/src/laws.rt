//! The law of the end of a run, the contract of a function that does nothing.
ghost use Rattle.gr_history.specs.Laws as laws;

use gr_machine::runs_merge;
use gr_stands_contents::contents_stand;
use gr_stands_legal::{runs_are_given, runs_are_legal};
use gr_stands_rests::{passed_runs_rest, runs_put_as_planned};
use gr_stands_stops::stops_tell;

/// What the cores of a run say of its end is what its history says.
pub fn runs_agree()
    ensures { laws.RunsAgree }
{
    runs_merge();
    contents_stand();
    runs_are_given();
    runs_are_legal();
    stops_tell();
    passed_runs_rest();
    runs_put_as_planned();
}
