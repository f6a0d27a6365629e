//! What limits speak of in a base formula: the places and the steps of its sequences, and the registers of its circuit.
#![tactic(auto)]

pub mod laws;
mod places;
mod registers;

pub use places::{LargeSequence, large_sequence};
pub use registers::{count_registers, told_sum};
