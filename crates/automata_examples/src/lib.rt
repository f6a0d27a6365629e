//! Labels, tables and composed automata by examples. They stand apart from the crates that they try, so that those
//! above those aren't proved with them.
#![tactic(auto)]

#[cfg(test)]
mod constructors;
#[cfg(test)]
mod labels;
#[cfg(test)]
mod sequences;
#[cfg(test)]
mod tables;
#[cfg(test)]
mod words;
