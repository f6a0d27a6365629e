//! Why tokens are no unit.

ghost use Rattle.std.specs.Prelude.{◌≡◌};
ghost use Rattle.unit_reader.specs.declared.errors.ParseError.TheVariants.{OutOfMemory};

use std::alloc::AllocError;
use thiserror::Error;

/// Why tokens are no unit. `token` is the number of a token, or the count of the tokens for the end of the text.
#[derive(Clone, Copy, Debug, PartialEq, Eq, Error)]
pub enum ParseError {
    #[error("syntax error at token {token}")]
    Syntax { token: u32 },
    /// The token would stand in 65 open phrases, or is the 2,049th of an item.
    #[error("token {token} stands too deep")]
    TooDeep { token: u32 },
    #[error("out of memory")]
    OutOfMemory,
}

impl From<AllocError> for ParseError {
    ghost from_gives = { λ _ e. e ≡ OutOfMemory };

    fn from(_error: AllocError) -> ParseError {
        ParseError::OutOfMemory
    }
}
