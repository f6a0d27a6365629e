//! Boolean expressions as the symbols of automata.
#![tactic(auto)]

pub mod laws;
mod symbols;
#[cfg(test)]
mod tests;

pub use symbols::Symbols;
