//! The product of two automata, and their fusion: two automata that overlap in one step.
#![tactic(auto)]

mod both;
mod fuse;
pub mod laws;
mod side;

pub use both::Both;
pub use fuse::Fuse;
pub use side::{Side, either_label, either_target};
