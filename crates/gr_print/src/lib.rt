//! Programs as text: each item and statement on its lines, and brackets only where the grouping needs them.
#![tactic(auto)]

mod declarations;
mod expressions;
mod laws;
mod margin;
mod parts;
mod printing;
mod statements;

pub use laws::texts_are_spellings;
pub use printing::print_program;
