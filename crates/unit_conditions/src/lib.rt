//! What holds of each unit for which bytes stand, as the compiler asks it.
#![tactic(auto)]

pub mod laws;
