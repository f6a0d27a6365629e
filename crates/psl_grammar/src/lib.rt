//! The unit as it is written: the raw tree over the numbers of tokens.
#![tactic(auto)]

mod expressions;
mod items;
pub mod laws;
mod properties;
mod sequences;
mod symbols;

pub use expressions::{RawExpr, RawSubexpr};
pub use items::{RawItem, RawUnit, TokenList};
pub use properties::{RawProp, RawSubprop};
pub use sequences::{RawRep, RawSere, RawSubsere};
pub use symbols::Symbol;
