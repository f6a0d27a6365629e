//! The top call.
#![tactic(auto)]

mod compiling;
mod message;
mod numbers;
mod outcome;
mod refusals;
mod running;
mod words;

pub use outcome::{Cause, Outcome};
pub use running::{run, run_without_words};
pub use words::compile_file;
