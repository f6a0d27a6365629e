//! Base forms by examples: what each operator is rewritten to, and how trees come apart. It stands apart from the crate
//! that it tries, so that those above that one aren't proved with it.
#![tactic(auto)]

#[cfg(test)]
mod base_forms;
#[cfg(test)]
mod formulas;
#[cfg(test)]
mod trees;
