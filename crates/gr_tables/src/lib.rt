//! The tables on which the plain memory runs a program: its tasks by id, its scopes with the ranges of loops,
//! and the numbers of the scopes' unended tasks; and what is due at an action.
#![tactic(auto)]

mod counts;
mod dues;
mod scopes;
mod tasks;
mod word_stack;

pub use counts::{Change, change_numbers, number_in};
pub use dues::{call_in, has_core, is_arrive, is_end, is_finish, is_loop, is_spawn, is_trap};
pub use scopes::{RangeRow, ScopeRow, begin_index};
pub use tasks::{Mode, Row, Tasks, Turn};
