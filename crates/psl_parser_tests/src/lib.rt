//! Texts of units with the trees that they have, or with what the parser answers.
#![tactic(auto)]

#[cfg(test)]
mod printing;
#[cfg(test)]
mod tests;
