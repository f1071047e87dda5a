//! What a core does next.

/// An event of a core.
#[derive(Clone, Copy, PartialEq, Eq)]
pub enum Event {
    /// It takes a packet that another core has shipped to it.
    Take { from: u64 },
    /// It acts on the first message of its inbox.
    Serve,
    /// The first ready task makes its next action, or where none is ready a unit of work is taken up.
    Run,
    /// It ships the first messages for another core as a packet.
    Ship { dest: u64 },
    /// The calls that wait to be combined on an object go off.
    Close { object: u64 },
    /// It asks another core for a unit of work.
    Steal { victim: u64 },
}
