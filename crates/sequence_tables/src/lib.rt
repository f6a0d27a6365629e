//! The table of a core sequence, and how many steps the sequence has.
#![tactic(auto)]

mod building;
mod copies;
pub mod laws;

pub use building::build;
