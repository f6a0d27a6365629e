//! How operators take operands without a width of their own, by the one table.

ghost use Rattle.std.specs.Prelude.{◌≡◌};
ghost use Rattle.psl_model.specs.Valid.{is_flip, wants_width, choose_bare, bare_by_both, bare_by_left};

use psl_model::{BinOp, UnOp};

macro_rules! hands_on_of {
    (($op:ident) $([$variant:ident $spelling:literal $hands_on:literal $value:tt])*) => {
        match $op {
            $(UnOp::$variant => $hands_on,)*
        }
    };
}

macro_rules! wants_of {
    (($op:ident) $([$variant:ident $spelling:literal $level:literal $taken:ident $wants:literal $value:tt])*) => {
        match $op {
            $(BinOp::$variant => $wants,)*
        }
    };
}

macro_rules! joined {
    (Both $left:ident $right:ident) => {
        $left && $right
    };
    (Shift $left:ident $right:ident) => {
        $left
    };
    (Compare $left:ident $right:ident) => {
        false
    };
    (Truth $left:ident $right:ident) => {
        false
    };
}

macro_rules! bare_of {
    (
        ($op:ident $left:ident $right:ident)
        $([$variant:ident $spelling:literal $level:literal $taken:ident $wants:literal $value:tt])*
    ) => {
        match $op {
            $(BinOp::$variant => joined!($taken $left $right),)*
        }
    };
}

/// Whether the operator's result is bare where its operand is.
pub fn hands_on(op: UnOp) -> bool
    ensures { result ≡ is_flip op }
{
    psl_model::unary_operators!(hands_on_of!(op), width, x)
}

/// Whether the operator is refused between two operands that are bare.
pub fn wants_width(op: BinOp) -> bool
    ensures { result ≡ wants_width op }
{
    psl_model::binary_operators!(wants_of!(op), context, x, y)
}

/// Whether an operator's result is bare.
pub fn joins_bare(op: BinOp, left: bool, right: bool) -> bool
    ensures { result ≡ choose_bare (bare_by_both op) (bare_by_left op) left right }
{
    psl_model::binary_operators!(bare_of!(op left right), context, x, y)
}
