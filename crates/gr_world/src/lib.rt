//! The cores of a run: their start, their meetings, and their ends as one global run.
#![tactic(auto)]

mod ends;
mod laws;
mod meetings;
mod starts;

pub use ends::finish;
pub use laws::ends_are_runs;
pub use meetings::meet_all;
pub use starts::start;
