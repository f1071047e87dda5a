//! Version 1 of the history text: a history with the names of its program, written and read.
#![tactic(auto)]

mod calls;
mod entries;
mod entry_lines;
mod fields;
mod header;
mod laws;
mod names;
mod putting;
mod reading;
mod starts;
mod text;
mod words;
mod writing;

pub use laws::readings_are_unique;
pub use reading::read;
pub use text::{HistError, HistoryText, NamedEntries, NamedEntry};
pub use writing::write;
