//! Runs of the program, but for its real files: what it ends with, what it writes and what it tells.
#![tactic(auto)]

#[cfg(test)]
mod devices;
#[cfg(test)]
mod refusals;
#[cfg(test)]
mod runs;
#[cfg(test)]
mod sizes;
#[cfg(test)]
mod texts;
