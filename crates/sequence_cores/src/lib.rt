//! The core sequence as which a sequence is counted, and how many places it has.
#![tactic(auto)]

mod cores;
mod counting;
pub mod laws;

pub use cores::{CoreError, core};
pub use counting::places;
