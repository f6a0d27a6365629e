//! The automaton that tells the first failure of an obligation.
#![tactic(auto)]

mod automaton;
pub mod laws;

pub use automaton::{FailAuto, FailRow, Next, first_failure};
