//! Circuits of formulas by examples, run cycle by cycle. They stand apart from the crate that they try, so that those
//! above that one aren't proved with them.
#![tactic(auto)]

#[cfg(test)]
mod checks;
#[cfg(test)]
mod circuits;
#[cfg(test)]
mod cycles;
#[cfg(test)]
mod events;
#[cfg(test)]
mod formulas;
#[cfg(test)]
mod gates;
#[cfg(test)]
mod later;
#[cfg(test)]
mod suffixes;
