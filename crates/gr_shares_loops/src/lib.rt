//! What each entry of a history does to the loops at which tasks wait, in plain states alone.
#![tactic(auto)]

mod laws;

pub use laws::entries_change_loops;
