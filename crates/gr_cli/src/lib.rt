//! The words of a command line: which options they give, or that they are no command.
#![tactic(auto)]

mod arguments;
mod error;
mod laws;
mod numbers;
mod rows;
mod settings;
mod values;
mod words;

pub use error::OptionsError;
pub use laws::options_are_within_limits;
pub use numbers::{BLOCK, Bounds, CORES, EVENTS, LIMIT, MAX_DIGITS, SEED, SIZE, SLICE, STEPS};
pub use rows::{accepted_rows, faulty_value_rows, refused_rows};
pub use settings::{Command, Options};
pub use words::options;
