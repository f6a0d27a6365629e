//! Verification units.

use crate::formulas::Formula;
use crate::names::{Name, Signal};
use sqlite_items::Items;

/// An `assert`.
#[derive(Debug, Drop)]
pub struct Directive {
    pub label: Option<Name>,
    /// A text for people.
    pub report: Option<Name>,
    pub formula: Formula,
}

/// A verification unit of IEEE 1850-2010, 7.2, with its named sequences and properties put in
/// place. The expressions of its directives name its signals by their places.
#[derive(Debug, Drop)]
pub struct PslUnit {
    pub name: Name,
    pub signals: Items<Signal>,
    pub directives: Items<Directive>,
}
