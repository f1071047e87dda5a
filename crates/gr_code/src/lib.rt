//! The code of a program: flat instructions that lead to one another, with numbers for names.
#![tactic(auto)]

mod choosing;
mod code;
mod emit;
mod instructions;
mod locals;
mod lowering;
mod opening;
mod points;
mod rows;
mod shapes;
mod shared;
mod terms;

pub use code::{Code, lower};
pub use instructions::{Instruction, Onward, Way};
pub use lowering::TaskEntry;
pub use rows::{instruction_rows, shape_rows, term_rows};
pub use shapes::{Shape, Shapes};
pub use shared::code_is_shared;
pub use terms::{Targets, Term, Terms};
