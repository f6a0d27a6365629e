//! Why a text is not read.

ghost use Rattle.std.specs.Prelude.{◌≡◌};
ghost use Rattle.verilog_reader.specs.declared.errors.Stop.TheVariants.{OutOfMemory};

use std::alloc::{AllocError, AllocFailed};
use thiserror::Error;

/// Why a phrase is not read. `left` is how many bytes stand from the place of the fault to the end.
#[derive(Clone, Copy, Debug)]
pub enum Stop {
    Wrong { left: usize },
    OutOfMemory,
}

impl From<AllocError> for Stop {
    ghost from_gives = { λ _ e. e ≡ OutOfMemory };

    fn from(_error: AllocError) -> Stop {
        Stop::OutOfMemory
    }
}

impl<T> From<AllocFailed<T>> for Stop
where
    T: Drop,
{
    ghost from_gives = { λ _ e. e ≡ OutOfMemory };

    fn from(_error: AllocFailed<T>) -> Stop {
        Stop::OutOfMemory
    }
}

/// Why a text has no modules.
#[derive(Clone, Copy, Debug, PartialEq, Eq, Error)]
pub enum TextError {
    /// The bytes are no checker text. The line, counted from 1, is where that was seen.
    #[error("no checker text from line {line} on")]
    NotChecker { line: u64 },
    #[error("out of memory")]
    OutOfMemory,
}
