//! The unit that the tokens of a text are, and its raw tree.
#![tactic(auto)]

mod bodies;
mod classes;
mod errors;
mod expressions;
mod items;
pub mod laws;
mod namesakes;
mod next_forms;
mod operators;
mod properties;
mod sequences;
mod symbols;
mod trees;
mod units;

pub use classes::classify;
pub use errors::ParseError;
pub use units::read_unit;
