//! The rules that a unit meets over its raw tree: on names, numbers, operators and size. The first broken rule.
#![tactic(auto)]

mod errors;
mod judging;
pub mod laws;
mod limits;
mod measures;
pub mod numbers;
pub mod operators;
mod rules;
pub mod source;
mod tables;
mod walk;
mod walking;

pub use errors::UnitError;
pub use rules::check_unit;
