//! The places and the core sequence of each form, in tables. They stand apart from the crate that they try, so that
//! those above that one aren't proved with them.
#![tactic(auto)]

#[cfg(test)]
mod cores;
#[cfg(test)]
mod numbers;
#[cfg(test)]
mod sequences;
