//! The tokens of a program text, and the places of its bytes.
#![tactic(auto)]

mod fault;
mod front;
mod laws;
mod lexing;
mod placing;
mod spelling;
mod token;

pub use fault::TextError;
pub use laws::names_are_names;
pub use lexing::tokens;
pub use placing::place;
pub use token::{Keyword, Sign, Token, TokenKind, Tokens};
