//! Checks as circuits: from a base formula to a netlist whose output tells where a trace violates it.
#![tactic(auto)]

mod checks;
mod circuits;
mod gates;
pub mod laws;
mod parts;

pub use circuits::{Circuit, CircuitError, check_circuit};
