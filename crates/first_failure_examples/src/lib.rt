//! Reached sets, and the automaton of first failure, by examples. They stand apart from the crates that they try, so
//! that those above those aren't proved with them.
#![tactic(auto)]

#[cfg(test)]
mod rows;
#[cfg(test)]
mod sets;
#[cfg(test)]
mod tables;
