//! Checker modules and their text.
#![tactic(auto)]

mod bytes;
pub mod examples;
mod expressions;
pub mod laws;
mod making;
mod module;
mod names;
mod printing;

pub use making::to_module;
pub use module::{Module, RegDecl, WireDecl};
pub use printing::print;
