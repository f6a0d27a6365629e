//! Circuits of automata by examples, run cycle by cycle. They stand apart from the crate that they try, so that those
//! above that one aren't proved with them.
#![tactic(auto)]

#[cfg(test)]
mod cycles;
#[cfg(test)]
mod streams;
#[cfg(test)]
mod tables;
