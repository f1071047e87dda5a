//! What a core does in a Run: the first ready task acts, or where none is ready the next unit of work is taken up.
#![tactic(auto)]

mod calls;
mod running;
mod scopes;
mod spawns;
mod units;
mod waiting;

pub use running::run;
