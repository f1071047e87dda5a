//! The parser of expressions and calls, and what every part of the parser reads from: the tokens that are
//! left. A crate above makes of it the parser of whole programs.
#![tactic(auto)]

mod arguments;
mod expressions;
mod fault;
mod limits;
mod lists;
mod meaning;
mod rest;

pub use arguments::{args, call, method, operation};
pub use expressions::{expr, expr_from};
pub use fault::Stop;
pub use limits::{LOOSEST, MAX_SIGNS};
pub use lists::{Element, enclosed, name, number, separated};
pub use meaning::{level_of, make_heap_name};
pub use rest::Rest;
