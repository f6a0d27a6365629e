//! The types of PSL that every layer speaks of, and what expressions are worth.
#![tactic(auto)]

mod arithmetic;
mod evaluation;
mod expressions;
mod formulas;
pub mod laws;
mod names;
mod operators;
mod refusals;
mod sequences;
mod units;
pub mod values;

pub use expressions::{Expr, Subexpr};
pub use formulas::{Formula, Reach, Subformula};
pub use names::{Name, Signal};
pub use operators::{BinOp, OPERATORS, OpRow, UnOp, operator_table};
pub use refusals::Refusal;
pub use sequences::{Sere, Subsere};
pub use units::{Directive, PslUnit};
