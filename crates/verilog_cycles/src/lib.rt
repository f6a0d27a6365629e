//! The cycles of a checker module: a machine that runs it.
#![tactic(auto)]

mod arithmetic;
mod cycles;
pub mod laws;
mod loading;
mod machine;
mod nodes;
mod program;

pub use machine::Machine;
