//! Gates: circuits that start a body later than they are started themselves, and tell what waits.
#![tactic(auto)]

mod chains;
mod counts;
mod events;
pub mod laws;
mod starts;

pub use chains::next_chain;
pub use events::{event_chain, event_some};
pub use starts::{open_starts, until_gate};
