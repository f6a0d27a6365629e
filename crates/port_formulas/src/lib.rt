//! Formulas over the ports of a checker module: which signals a formula uses, and the formula that names these by their
//! order.
#![tactic(auto)]

pub mod laws;
mod renumbering;
mod uses;

pub use renumbering::over_places;
pub use uses::used_places;
