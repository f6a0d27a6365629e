//! Sequences over the ports of a checker module have the places and the steps that they had.
#![tactic(auto)]

pub mod laws;
