//! What a core does with the messages of vectors' turns: turns are asked for, granted and ended, and words are put at
//! the homes of their positions, got from there, and answered.
#![tactic(auto)]

mod elements;
mod granting;
mod masters;
mod settling;

pub use elements::{answer, fetch, store};
pub use granting::grant;
pub use masters::{ask, done};
pub use settling::settle;
