//! From a sequence to a net that is on where it has matched.
#![tactic(auto)]

mod guards;
pub mod laws;
mod matching;

pub use matching::{Matched, matches};
