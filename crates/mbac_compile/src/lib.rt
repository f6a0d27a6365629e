//! From formulas to checker modules.
#![tactic(auto)]

mod checkers;
mod directives;
mod formulas;
mod interfaces;
mod laws;

pub use checkers::{Checker, checker_of};
pub use directives::{CheckError, check_form, checker_of_directive};
pub use formulas::has_built_form;
