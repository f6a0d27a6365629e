//! Texts of units with what they stand for, or with what refuses them.
#![tactic(auto)]

#[cfg(test)]
mod asking;
#[cfg(test)]
mod making;
#[cfg(test)]
mod tests;
