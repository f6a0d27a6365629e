//! Why a unit is refused.

ghost use Rattle.std.specs.Prelude.{◌≡◌};
ghost use Rattle.unit_rules.specs.declared.errors.UnitError.TheVariants.{OutOfMemory};

use std::alloc::AllocError;

/// The first broken rule of a unit. Tokens count from 0, directives from 1.
#[derive(Clone, Copy, Debug, PartialEq, Eq)]
pub enum UnitError {
    /// A name that gets a second meaning, or a label that comes again.
    DuplicateName { token: u32 },
    /// The number at fault of a range.
    BadRange { token: u32 },
    /// A count above the limit.
    CountTooLarge { token: u32 },
    /// The `assert` past the most that a unit may have.
    TooManyDirectives { token: u32 },
    /// The name of the signal past the most that a unit may have.
    TooManySignals { token: u32 },
    /// A literal whose digits, width or value is refused.
    BadLiteral { token: u32 },
    /// The number of a place that the vector doesn't have, or a low end above its high end.
    BadSelect { token: u32 },
    /// The high end of a vector that is too wide.
    TooWide { token: u32 },
    /// An operator whose operands have no width of their own.
    ConstantArithmetic { token: u32 },
    /// A directive whose phrases nest too deep, names put in place, and its depth.
    TooTall { directive: u32, depth: u64 },
    /// The directives up to this one have too many nodes, names put in place: how many, or 2^63 where there are more.
    TooLarge { directive: u32, nodes: u64 },
    OutOfMemory,
}

impl From<AllocError> for UnitError {
    ghost from_gives = { λ _ e. e ≡ OutOfMemory };

    fn from(_error: AllocError) -> UnitError {
        UnitError::OutOfMemory
    }
}
