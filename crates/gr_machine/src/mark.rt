//! What events leave for the history.
use gr_lang::{Calls, Entry};

/// What an event leaves for the history of the run.
#[derive(Drop)]
pub enum Mark {
    /// An entry of the history.
    Entry {
        entry: Entry,
    },
    /// The calls of a batch went off to its home.
    Closed {
        batch: u64,
        calls: Calls,
    },
    /// The batch of that number of its origin took effect here, where this stood before.
    Applied {
        origin: u64,
        batch: u64,
        before: Option<u64>,
    },
}
