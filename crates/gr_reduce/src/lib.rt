//! The eight reducers as functions that the caller hands in, each kept beside the fact that it is the reducer
//! of its number.
#![tactic(auto)]

mod reducer;
mod reducers;
mod shared;

pub use reducer::Reducer;
pub use reducers::Reducers;
pub use shared::reducers_are_shared;
