//! Tests of reading checker text: one checker with each of its lines changed, and checkers that the compiler wrote.
#![tactic(auto)]

#[cfg(test)]
mod changes;
#[cfg(test)]
mod checker;
#[cfg(test)]
mod orders;
#[cfg(test)]
mod pairs;
#[cfg(test)]
mod runs;
#[cfg(test)]
mod sizes;
#[cfg(test)]
mod written;
