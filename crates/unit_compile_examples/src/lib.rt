//! Texts of units with their checkers, or with what they are refused for.
#![tactic(auto)]

#[cfg(test)]
mod answers;
#[cfg(test)]
mod cycles;
#[cfg(test)]
mod texts;
