//! Tests across crates: from netlists to modules, their text and their cycles.
#![tactic(auto)]

#[cfg(test)]
mod cycles;
#[cfg(test)]
mod netlist_texts;
#[cfg(test)]
mod netlists;
#[cfg(test)]
mod nodes;
#[cfg(test)]
mod ports;
#[cfg(test)]
mod texts;
