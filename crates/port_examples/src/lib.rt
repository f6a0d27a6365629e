//! Formulas over the signals that they use, by an example.
#![tactic(auto)]

#[cfg(test)]
mod aborted;
