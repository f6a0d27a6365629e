//! Waveforms that simulators wrote, and others written by hand: read whole and in pieces, sampled, and checked. It
//! stands apart from the crates that it tries, so that those above them aren't proved with it.
#![tactic(auto)]

#[cfg(test)]
mod answers;
#[cfg(test)]
mod dumps;
#[cfg(test)]
mod faults;
#[cfg(test)]
mod names;
#[cfg(test)]
mod pieces;
#[cfg(test)]
mod samples;
#[cfg(test)]
mod tokens;
#[cfg(test)]
mod verdicts;
