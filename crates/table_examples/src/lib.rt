//! Tests alone: tables of core sequences, by their sizes and by the lists that they accept.
#![tactic(auto)]

#[cfg(test)]
mod longest;
#[cfg(test)]
mod shapes;
#[cfg(test)]
mod tables;
#[cfg(test)]
mod words;
