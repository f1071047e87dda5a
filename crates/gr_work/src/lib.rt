//! The units of work that wait on a core: its own, and those that others may take.
#![tactic(auto)]

mod laws;
mod parts;
mod work;

pub use laws::parts_cover_their_range;
pub use work::Work;
