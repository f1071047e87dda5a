//! The machine: how a run is done, by cores that send each other messages. What an event does to a core, and what
//! the events of all cores make of a program.
#![tactic(auto)]

mod core_end;
mod counts;
mod event;
mod event_rows;
mod journal;
mod laws;
mod mark;
mod program_rows;
mod run_rows;
mod setup;
mod waits;

pub use core_end::{CoreEnd, CoreEnds, PacketLists, Packets};
pub use counts::Counts;
pub use event::Event;
pub use event_rows::{enabled_rows, single_rows};
pub use journal::{Journal, Marks, Stamped, StampedMark};
pub use laws::{events_are_local, machine_is_net, runs_merge};
pub use mark::Mark;
pub use program_rows::programs_of_runs;
pub use run_rows::{runs_on_one_core, runs_on_two_cores};
pub use setup::Setup;
pub use waits::Waits;
