//! The text of programs as trees, the limits of the language, and the faults for which a text is refused.
#![tactic(auto)]

mod limits;
mod refusal;
mod syntax;
mod targets;

pub use limits::{
    HEAP, MAX_CORES, MAX_LOCALS, MAX_NAME, MAX_OBJECTS, MAX_PARAMS, MAX_STEPS, MAX_TASKS, MAX_WORDS,
};
pub use refusal::{Fault, Kind};
pub use syntax::{
    BinOp, Block, CallText, Expr, Exprs, HowText, Item, Name, Names, Number, Numbers, Place,
    Program, Right, Stmt, Text,
};
pub use targets::targets_fit;
