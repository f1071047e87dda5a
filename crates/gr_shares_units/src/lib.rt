//! Units of work that come to be, are split and are taken up, and outcomes that leave all chunks: each keeps the part of
//! work.
#![tactic(auto)]

mod laws;

pub use laws::{chunks_share, shares_stay};
