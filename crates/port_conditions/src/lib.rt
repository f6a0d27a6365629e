//! What a formula over the ports takes over from its formula.
#![tactic(auto)]

pub mod laws;
