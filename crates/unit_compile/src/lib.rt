//! From the bytes of a unit's text to its checkers.
#![tactic(auto)]

mod compiling;
pub mod laws;
mod making;
mod refusals;

pub use compiling::{compile, modules};
