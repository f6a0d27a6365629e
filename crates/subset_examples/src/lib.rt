//! The simple subset by examples, in tables. It stands apart from the crate that it tries, so that those above that
//! one aren't proved with it.
#![tactic(auto)]

#[cfg(test)]
mod accepted;
#[cfg(test)]
mod formulas;
#[cfg(test)]
mod rules;
