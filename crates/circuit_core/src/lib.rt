//! Netlists: one-bit nets and registers, clocked together, that see the signals of a trace through guards.
#![tactic(auto)]

pub mod laws;
mod netlist;
mod nodes;

pub use netlist::Netlist;
pub use nodes::{Check, Gate, Net, NetReg, Node, Op, Reg};
