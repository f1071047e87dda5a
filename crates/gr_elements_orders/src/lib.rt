//! The messages from one core to another in the order in which they were sent, for any kind of state, message, packet and
//! mark: what an outcome at a core, a Ship and a Take do to that order.
#![tactic(auto)]

mod laws;

pub use laws::{orders_are_kept, orders_move, orders_tell};
