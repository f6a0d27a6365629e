//! From the raw tree of a unit to the unit.
#![tactic(auto)]

mod expressions;
mod formulas;
pub mod laws;
mod names;
mod naming;
mod resolving;
mod sequences;

pub use resolving::resolve;
pub use unit_rules::UnitError;
