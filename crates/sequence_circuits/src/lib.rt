//! Circuits that follow automata, with one register a state, over all starts and clears.
#![tactic(auto)]

mod detection;
mod edges;
mod moves;
mod obligation;
mod states;
mod valuations;

pub use detection::detect;
pub use obligation::oblige;
