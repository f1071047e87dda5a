//! What the plan of a turn makes of a vector's words by their positions: which it puts, which it takes out and which stay.
#![tactic(auto)]

mod laws;

pub use laws::plans_tell;
