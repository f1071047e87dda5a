//! When no work is left under a scope: where no core counts a task or an index of it, as the last core that leaves it
//! finds.
#![tactic(auto)]

mod laws;

pub use laws::{last_cores_leave_none, work_is_counted};
