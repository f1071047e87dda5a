//! Messages of elements of vectors, turns that begin and turns that end keep where the words of vectors are; and each message
//! of an element finds something to act on.
#![tactic(auto)]

mod laws;

pub use laws::{elements_are_served, events_keep_elements};
