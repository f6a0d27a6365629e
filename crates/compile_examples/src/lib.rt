//! Tests of checkers that are made from base formulas: their texts, their cycles, and the limit of their registers.
#![tactic(auto)]

#[cfg(test)]
mod budgets;
#[cfg(test)]
mod counters;
#[cfg(test)]
mod directives;
#[cfg(test)]
mod formulas;
#[cfg(test)]
mod nested;
#[cfg(test)]
mod ports;
#[cfg(test)]
mod seen;
