//! What a run of the program ends with.

use psl_model::Refusal;

/// Why a run ended as it did. Causes are passed by reference, so that one may hold a name.
#[derive(Debug, Drop, PartialEq, Eq)]
pub enum Cause {
    Done,
    /// The words are no command.
    Usage,
    /// A read of this slot failed.
    ReadFault { slot: u32 },
    /// A write to the output failed.
    WriteFault,
    OutOfMemory,
    /// The slot has more bytes than its limit.
    InputTooLong { slot: u32 },
    /// A unit that isn't compiled, for this reason. Want of memory is no such reason: it is a cause of its own.
    Refused(Refusal),
}

/// The exit status of the program, and its cause.
#[derive(Debug, Drop, PartialEq, Eq)]
pub struct Outcome {
    pub status: u8,
    pub cause: Cause,
}
