//! Where a slice tells how far it is.

/// Where a slice is told that it looks for its next event. It changes nothing that contracts see.
pub trait Gate: Sync {
    /// The core looks for its next event, in this turn of its slice in this round, both counted from 0.
    fn at(&self, core: u64, round: u64, turn: u64);
}

/// A gate that does nothing.
#[derive(Drop)]
pub struct NoGate;

impl Gate for NoGate {
    fn at(&self, _core: u64, _round: u64, _turn: u64) {}
}
