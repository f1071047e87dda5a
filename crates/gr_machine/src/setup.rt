//! The numbers of a run.

/// The numbers that all cores of a run share.
#[derive(Clone, Copy, PartialEq, Eq)]
pub struct Setup {
    /// The number of cores.
    pub cores: u64,
    /// The words in a row that have one home.
    pub block: u64,
    /// The messages that fill a packet.
    pub limit: u64,
    /// The most pure steps of a task between two actions.
    pub steps: u64,
    /// The clock at which a core stops.
    pub events: u64,
}
