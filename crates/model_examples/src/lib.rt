//! Examples of names, trees, expressions and tokens, worked out by hand.
#![tactic(auto)]

#[cfg(test)]
mod expressions;
#[cfg(test)]
mod tokens;
#[cfg(test)]
mod trees;
