//! Tables of names: the places of names in a list, and a program's objects and tasks by name and number.
#![tactic(auto)]

mod index;
mod program;

pub use index::NameIndex;
pub use program::ProgramNames;
