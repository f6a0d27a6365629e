//! Operators over numbers of at most 128 bits.

ghost use Rattle.std.specs.Prelude.{◌≡◌, ℕ, ◌-◌, ◌*◌, ◌/◌, ◌%◌, ◌^◌, ◌<◌, ◌≤◌};
ghost use Rattle.psl_model.specs.Limits.{value_limit};
ghost use Rattle.psl_model.specs.Value.{unary_value, binary_value};

use crate::operators::{BinOp, UnOp};
use crate::{binary_operators, unary_operators};

/// The greatest number of so many bits.
pub fn ones(width: u32) -> u128
    requires { width ≤ value_limit }
    ensures { result ≡ 2 ^ width - 1 }
{
    if width < 128 {
        (1 << width) - 1
    } else {
        u128::MAX
    }
}

/// The low bits of a number.
pub fn cut(x: u128, width: u32) -> u128
    requires { width ≤ value_limit }
    ensures { result ≡ x % 2 ^ width }
{
    x & ones(width)
}

fn shifted_left(x: u128, by: u128, context: u32) -> u128
    requires { context ≤ value_limit }
    ensures { result ≡ x * 2 ^ by % 2 ^ context }
{
    if by < u128::from(context) {
        cut(x << by as u32, context)
    } else {
        0
    }
}

fn shifted_right(x: u128, by: u128) -> u128
    ensures { result ≡ x / 2 ^ by }
{
    if by < 128 { x >> by as u32 } else { 0 }
}

macro_rules! value_of_unary {
    (($op:ident) $([$variant:ident $spelling:literal $hands_on:literal $value:tt])*) => {
        match $op {
            $(UnOp::$variant => $value,)*
        }
    };
}

/// A prefix operator over a number of this width.
pub fn unary(op: UnOp, width: u32, x: u128) -> u128
    requires width { width ≤ value_limit }
    requires fits { x < 2 ^ width }
    ensures { result ≡ unary_value op width x }
{
    unary_operators!(value_of_unary!(op), width, x)
}

macro_rules! value_of_binary {
    (($op:ident) $([$variant:ident $spelling:literal $level:literal $taken:ident $wants:literal $value:tt])*) => {
        match $op {
            $(BinOp::$variant => $value,)*
        }
    };
}

/// An operator whose result is taken at so many bits. A number that is taken away fits them.
pub fn binary(op: BinOp, context: u32, x: u128, y: u128) -> u128
    requires context { context ≤ value_limit }
    requires taken_away { op ≡ BinOp.Sub → y < 2 ^ context }
    ensures { result ≡ binary_value op context x y }
{
    binary_operators!(value_of_binary!(op), context, x, y)
}
