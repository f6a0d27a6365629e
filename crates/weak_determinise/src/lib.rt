//! The sets of states that an obligation can be in.
#![tactic(auto)]

mod bits;
mod determinising;
mod marking;
mod moving;
mod numbering;
mod numbers;
mod places;
mod sets;
mod stepping;

pub use determinising::determinise;
pub use sets::{DetError, Move, SetNode, Sets};
