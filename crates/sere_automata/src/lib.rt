//! Automata of sequences: one letter, one part after another, one of two parts, and a part any number of
//! times.
#![tactic(auto)]

mod concat;
pub mod laws;
mod leaf;
mod one_of;
mod repeat;
mod states;

pub use concat::Concat;
pub use leaf::Leaf;
pub use one_of::OneOf;
pub use repeat::Repeat;
pub use states::{Choice, LeafState, Round};
