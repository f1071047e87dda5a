//! The journal of a core, and its marks.
use crate::event::Event;
use crate::mark::Mark;
use gr_lang::{Sequence, Words};

/// An event as it was made: with the core's clock after it, and with the slots that the new tasks of this event
/// took, in order.
#[derive(Drop)]
pub struct Stamped {
    pub clock: u64,
    pub event: Event,
    pub slots: Words,
}

/// A mark with the clock of its event.
#[derive(Drop)]
pub struct StampedMark {
    pub clock: u64,
    pub mark: Mark,
}

/// The events of a core, in order.
pub type Journal = Sequence<Stamped>;

/// The marks of a core, in order.
pub type Marks = Sequence<StampedMark>;
