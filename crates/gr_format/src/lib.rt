//! Formats: values spelled as big-endian numbers in ranges, and how such numbers are read and written.
//!
//! The definitions stand in specs/, the laws in laws.rt.
#![tactic(auto)]

mod error;
mod field;
mod laws;
mod reading;

pub use error::FormatError;
pub use field::{Field, put};
pub use laws::{format_rows, formats_are_exact, values_are_spelled_once};
pub use reading::{byte, pair, word};
