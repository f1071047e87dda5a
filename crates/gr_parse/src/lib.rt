//! The parser of program texts: from the tokens of a text to its program, or to the first token that
//! continues no program.
#![tactic(auto)]

mod assignments;
mod blocks;
mod declarations;
mod fault;
mod laws;
mod limits;
mod program;
mod starts;

pub use fault::ParseError;
pub use laws::answers_are_unique;
pub use limits::MAX_NESTING;
pub use program::parse;
