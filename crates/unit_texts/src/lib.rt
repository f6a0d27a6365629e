//! From the bytes of a unit's text to the unit.
#![tactic(auto)]

mod errors;
pub mod laws;
mod reading;

pub use errors::TextError;
pub use reading::read_text;
