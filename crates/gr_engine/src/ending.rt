//! What is left of a run, and how it ended.
use gr_lang::History;
use gr_machine::CoreEnds;
use gr_memory::Contents;
use gr_report::{LimitAt, TrapAt};

/// What is left of a run.
#[derive(Drop)]
pub struct WorldEnd {
    /// What is left of each core, in the order of the cores.
    pub cores: CoreEnds,
    /// All that the tasks did, in one order.
    pub history: History,
}

/// How a run ended.
#[derive(Drop)]
pub enum Ending {
    /// The root scope is passed; what the objects hold.
    Complete { contents: Contents },
    /// A task is trapped; the first trap of the history.
    Trapped { trap: TrapAt },
    /// The clock of a core has come to the limit of events; the first such core.
    Limited { at: LimitAt },
    /// No core can go on.
    Stalled,
}

/// A run that has ended.
#[derive(Drop)]
pub struct Ran {
    pub world: WorldEnd,
    pub ending: Ending,
}
