//! Waveforms as data, and why bytes stand for none.

use psl_model::Name;
use thiserror::Error;

/// A variable of a scope. Several variables may share a code.
#[derive(Debug, Drop, PartialEq, Eq)]
pub struct Var {
    /// The names of the open scopes, outermost first, joined by `.`; empty outside every scope.
    pub scope: Name,
    /// The name without the range that may stand behind it.
    pub name: Name,
    /// In bits, from 1 to 65,536.
    pub size: u32,
    /// The number of the variable's identifier; identifiers are numbered from 0 by their first declaration.
    pub code: usize,
}

/// A new value of all variables of a code.
#[derive(Debug, Drop, PartialEq, Eq)]
pub struct Change {
    /// In units of the waveform's time scale.
    pub time: u64,
    pub code: usize,
    /// The digits as they stand in the text, leftmost first: `0`, `1`, `x`, `X`, `z` or `Z`, at least one and at most
    /// as many as the size of the code.
    pub digits: Name,
}

/// A waveform: its variables and its changes, both in the order of the text.
#[derive(Debug, Drop)]
pub struct Vcd {
    pub vars: Vec<Var>,
    pub changes: Vec<Change>,
}

/// Why there is no waveform of some bytes.
#[derive(Clone, Copy, Debug, PartialEq, Eq, Error)]
pub enum VcdError {
    /// The token at this offset, in bytes, breaks the rules of the format; or the text ends too early, and this is its
    /// length.
    #[error("no waveform from byte {offset} on")]
    VcdSyntax { offset: u64 },
    /// The time at this offset, in bytes, is below the time before it.
    #[error("the time at byte {offset} goes back")]
    TimeGoesBack { offset: u64 },
    #[error("out of memory")]
    OutOfMemory,
}
