//! Automata over labels: labels, the trait that every automaton implements, tables, and from which states a table
//! accepts, and whether nothing can meet what it stands for.
#![tactic(auto)]

mod aliveness;
mod automaton;
mod contradicting;
mod exploring;
mod indexed;
mod labels;
pub mod laws;
mod tables;

pub use aliveness::{Marks, alive};
pub use automaton::Auto;
pub use contradicting::contradiction;
pub use exploring::{TableError, materialise};
pub use indexed::IndexedTable;
pub use labels::{Label, Literal};
pub use tables::{Edge, Table};
