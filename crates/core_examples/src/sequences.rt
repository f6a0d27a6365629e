//! Sequences of one operator over `a`, `b` and `{a;b}`, and a few large ones.

use psl_model::{Expr, Sere, Subsere};
use std::alloc::{AllocError, Global};

/// A sequence; the numbers are counts.
#[derive(Clone, Copy, Drop)]
pub(crate) enum Form {
    /// `a`
    A,
    /// `a;b`
    Then,
    /// `a:b`
    Fuse,
    /// `a | b`
    Or,
    /// `a && b`
    Both,
    /// `a & b`
    Meet,
    /// `a within b`
    Within,
    /// `a[*`
    Repeat(u32, Option<u32>),
    /// `a[->`
    Goto(u32, Option<u32>),
    /// `a[=`
    Equal(u32, Option<u32>),
    /// `{a;b}[*`
    RepeatTwo(u32, Option<u32>),
    /// `{a;b}[*1024]` any number of times
    LongAgain,
    /// `a[*m] && a[*n]`
    TwoLong(u32, u32),
}

fn leaf(alloc: Global, place: usize) -> Result<Subsere, AllocError> {
    Subsere::new(alloc, Sere::Bool(Expr::Whole(place)))
}

fn two(alloc: Global) -> Result<Subsere, AllocError> {
    let left = leaf(alloc, 0)?;
    let right = leaf(alloc, 1)?;
    Subsere::new(alloc, Sere::Then(left, right))
}

fn copies(alloc: Global, body: Subsere, count: u32) -> Result<Subsere, AllocError> {
    Subsere::new(alloc, Sere::Repeat(body, count, Some(count)))
}

// An operator over `a` and `b`.
fn joined(alloc: Global, form: Form) -> Result<Subsere, AllocError> {
    let left = leaf(alloc, 0)?;
    let right = leaf(alloc, 1)?;
    let sere = match form {
        Form::Then => Sere::Then(left, right),
        Form::Fuse => Sere::Fuse(left, right),
        Form::Or => Sere::Or(left, right),
        Form::Both => Sere::Both(left, right),
        Form::Meet => Sere::Meet(left, right),
        _ => Sere::Within(left, right),
    };
    Subsere::new(alloc, sere)
}

fn long_again(alloc: Global) -> Result<Subsere, AllocError> {
    let body = copies(alloc, two(alloc)?, 1024)?;
    Subsere::new(alloc, Sere::Repeat(body, 0, None))
}

fn two_long(alloc: Global, left: u32, right: u32) -> Result<Subsere, AllocError> {
    let left = copies(alloc, leaf(alloc, 0)?, left)?;
    let right = copies(alloc, leaf(alloc, 0)?, right)?;
    Subsere::new(alloc, Sere::Both(left, right))
}

/// The sequence of this form.
pub(crate) fn make(alloc: Global, form: Form) -> Result<Subsere, AllocError> {
    match form {
        Form::A => leaf(alloc, 0),
        Form::Repeat(low, high) => {
            let body = leaf(alloc, 0)?;
            Subsere::new(alloc, Sere::Repeat(body, low, high))
        }
        Form::RepeatTwo(low, high) => {
            let body = two(alloc)?;
            Subsere::new(alloc, Sere::Repeat(body, low, high))
        }
        Form::Goto(low, high) => Subsere::new(alloc, Sere::Goto(Expr::Whole(0), low, high)),
        Form::Equal(low, high) => Subsere::new(alloc, Sere::Equal(Expr::Whole(0), low, high)),
        Form::LongAgain => long_again(alloc),
        Form::TwoLong(left, right) => two_long(alloc, left, right),
        _ => joined(alloc, form),
    }
}
