//! Reading checker text: the modules that the bytes stand for, exactly.
#![tactic(auto)]

mod atoms;
mod bareness;
mod behaviour;
mod bytes;
mod declarations;
mod errors;
mod expressions;
mod headers;
mod interfaces;
pub mod laws;
mod lists;
mod modules;
mod names;
mod phrases;
mod symbols;
mod tables;
mod words;

pub use errors::TextError;
pub use lists::read_modules;
