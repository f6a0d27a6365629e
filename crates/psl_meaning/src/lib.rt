//! What PSL means: the definitions, and laws and examples of them that show what they say.
#![tactic(auto)]

pub mod examples;
pub mod laws;
