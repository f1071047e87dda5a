//! What a core has done, in numbers.

/// What a core has done, in numbers.
#[derive(Clone, Copy, PartialEq, Eq)]
pub struct Counts {
    /// The events in which a task made a call, a print included.
    pub calls: u64,
    /// The messages that were shipped.
    pub messages: u64,
    /// The packets that were shipped.
    pub packets: u64,
    /// The packets among them with fewer messages than fill one.
    pub short: u64,
    /// The batches that went off.
    pub batches: u64,
    /// The events in which it asked another core for work.
    pub asks: u64,
    /// The units that it gave to cores which had asked.
    pub gives: u64,
}
