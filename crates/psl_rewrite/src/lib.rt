//! What checks are made of: core sequences and base formulas, and the base form of a formula.
#![tactic(auto)]

mod base;
mod core_sequences;
pub mod laws;
mod rewriting;
pub mod violations;

pub use base::{Base, Subbase};
pub use core_sequences::{CoreSere, Subcore};
pub use rewriting::rewrite;
