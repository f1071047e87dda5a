//! The merge of the runs of cores that send packets to each other, for any states, journals, packets and marks.
#![tactic(auto)]

mod laws;
#[cfg(test)]
mod merge_tests;
mod merging;

pub use laws::{
    folds_are_runs, folds_go_on, journals_grow, machine_rows, merge_rows, merges_are_global_runs,
    merges_are_in_order, orders_are_global_runs, refused_rows, runs_go_on,
};
pub use merging::{Clocked, merge};
