//! That the tokens of a text are a unit exactly if they spell a tree and none of them is too deep.
#![tactic(auto)]

pub mod laws;
