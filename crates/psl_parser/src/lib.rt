//! From the tokens of a unit to its raw tree.
#![tactic(auto)]

mod depth;
mod forms;
mod items;
mod marks;
mod names;
mod parsing;
mod phrases;

pub use parsing::{first_too_deep, parse_unit};
pub use unit_reader::ParseError;
