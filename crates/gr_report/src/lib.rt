//! What is told of a run: the final contents of the objects, and the texts of an answer.
#![tactic(auto)]

mod ends;
mod gathering;
mod laws;
mod merging;
mod showing;
mod texts;

pub use ends::{LimitAt, counts_text, write_limit};
pub use gathering::contents;
pub use gr_memory::{Content, Contents};
pub use laws::cores_hold_together;
pub use showing::show_text;
pub use texts::{TrapAt, first_trap, prints, write_trap};
