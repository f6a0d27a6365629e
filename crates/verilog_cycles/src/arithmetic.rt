//! Operators over numbers of at most 64 bits.

ghost use Rattle.std.specs.Prelude.{◌≡◌, ℕ, ◌-◌, ◌*◌, ◌/◌, ◌%◌, ◌^◌, ◌<◌, ◌≤◌};
ghost use Rattle.psl_model.specs.Limits.{vector_limit};
ghost use Rattle.psl_model.specs.Value.{unary_value, binary_value};

use psl_model::{BinOp, UnOp};

/// The greatest number of so many bits.
fn ones(width: u32) -> u64
    requires { width ≤ vector_limit }
    ensures { result ≡ 2 ^ width - 1 }
{
    if width < 64 {
        (1 << width) - 1
    } else {
        u64::MAX
    }
}

/// The low bits of a number.
fn cut(x: u64, width: u32) -> u64
    requires { width ≤ vector_limit }
    ensures { result ≡ x % 2 ^ width }
{
    x & ones(width)
}

/// So many bits of a number, from the low end on.
pub(crate) fn part(x: u64, low: u32, width: u32) -> u64
    requires low { low < vector_limit }
    requires width { width ≤ vector_limit }
    ensures { result ≡ x / 2 ^ low % 2 ^ width }
{
    cut(x >> low, width)
}

/// A prefix operator over a number of this width.
pub(crate) fn unary(op: UnOp, width: u32, x: u64) -> u64
    requires { width ≤ vector_limit }
    ensures { result ≡ unary_value op width x }
{
    match op {
        UnOp::Not => u64::from(x == 0),
        UnOp::Flip => ones(width).saturating_sub(x),
        UnOp::AllOnes => u64::from(x == ones(width)),
        UnOp::AnyOne => u64::from(x != 0),
        UnOp::Parity => u64::from(x.count_ones()) % 2,
    }
}

/// An operator whose result is taken at so many bits.
pub(crate) fn binary(op: BinOp, context: u32, x: u64, y: u64) -> u64
    requires { context ≤ vector_limit }
    ensures { result ≡ binary_value op context x y }
{
    match op {
        BinOp::Add => cut(x.wrapping_add(y), context),
        BinOp::Sub => difference(x, y, context),
        BinOp::Shl => shifted_left(x, y, context),
        BinOp::Shr => shifted_right(x, y),
        BinOp::Lt => u64::from(x < y),
        BinOp::Le => u64::from(x <= y),
        BinOp::Gt => u64::from(y < x),
        BinOp::Ge => u64::from(y <= x),
        BinOp::Eq => u64::from(x == y),
        BinOp::Ne => u64::from(x != y),
        BinOp::BitAnd => x & y,
        BinOp::BitXor => x ^ y,
        BinOp::BitOr => x | y,
        BinOp::And => u64::from(x != 0 && y != 0),
        BinOp::Or => u64::from(x != 0 || y != 0),
    }
}

/// A number less another, after one round of so many bits was added.
fn difference(x: u64, y: u64, context: u32) -> u64
    requires { context ≤ vector_limit }
    ensures { result ≡ binary_value BinOp.Sub context x y }
{
    let round = u128::from(ones(context)) + 1;
    let left = (u128::from(x) + round).saturating_sub(u128::from(y));
    (left % round) as u64
}

fn shifted_left(x: u64, by: u64, context: u32) -> u64
    requires { context ≤ vector_limit }
    ensures { result ≡ x * 2 ^ by % 2 ^ context }
{
    if by < u64::from(context) {
        cut(x << by as u32, context)
    } else {
        0
    }
}

fn shifted_right(x: u64, by: u64) -> u64
    ensures { result ≡ x / 2 ^ by }
{
    if by < 64 { x >> by as u32 } else { 0 }
}
