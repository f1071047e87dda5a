//! What the words of a command line can say.
use gr_gen::BenchKind;

/// What the program is to do.
#[derive(Clone, Copy, Debug, PartialEq, Eq)]
pub enum Command {
    /// Runs a program, and writes its results.
    Run,
    /// Says whether a program is accepted.
    Check,
    /// Says whether a history is one of a program.
    Replay,
    /// Makes a program, and runs it.
    Bench,
}

/// The command, and what each option is in the words or by default.
#[derive(Clone, Copy, Debug, PartialEq, Eq)]
pub struct Options {
    pub command: Command,
    /// The number of cores, within `CORES`.
    pub cores: u64,
    /// The words of a block, which lie at one core, within `BLOCK`.
    pub block: u64,
    /// The messages with which a packet is shipped at once, within `LIMIT`.
    pub limit: u64,
    /// The most pure steps of a task between two of its actions, within `STEPS`.
    pub steps: u64,
    /// The most events of a core in one round, within `SLICE`.
    pub slice: u64,
    /// The clock of a core at which a run is ended, within `EVENTS`.
    pub events: u64,
    /// Whether the history of a run is written.
    pub history: bool,
    /// Whether the counts of each core are written.
    pub counts: bool,
    /// Which program `bench` makes, by default `Words`.
    pub kind: BenchKind,
    /// The indices of a loop of the program that `bench` makes, within `SIZE`.
    pub size: u64,
    /// The seed of that program, within `SEED`.
    pub seed: u64,
}
