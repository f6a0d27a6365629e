//! Core sequences over three signals of one bit, a, b and c, and their tables.

use auto_core::Table;
use psl_model::Expr;
use psl_rewrite::{CoreSere, Subcore};
use sequence_tables::build;
use std::alloc::{AllocError, Global};
use symbol_alphabet::Symbols;

#[derive(Clone, Copy, Debug)]
pub(crate) enum Shape {
    /// `{a;false}`
    ThenNever,
    /// `{a;b}:{b;c}`
    Overlap,
    /// `a | b`
    Either,
    /// `{a;b} && {b;a}`
    Together,
    /// `a[*]`
    Repeated,
    /// So many copies of `{a;b}`.
    Pairs(u32),
    /// So many copies of `{[*0] | a}`.
    AtMost(u32),
}

fn signal(alloc: Global, number: usize) -> Result<Subcore, AllocError> {
    Subcore::new(alloc, CoreSere::Bool(Expr::Whole(number)))
}

// The one signal and then the other.
fn two_signals(alloc: Global, first: usize, second: usize) -> Result<Subcore, AllocError> {
    let first = signal(alloc, first)?;
    let second = signal(alloc, second)?;
    Subcore::new(alloc, CoreSere::Then(first, second))
}

// `{a;false}`
fn then_never(alloc: Global) -> Result<Subcore, AllocError> {
    let first = signal(alloc, 0)?;
    let never = Subcore::new(alloc, CoreSere::Bool(Expr::Sized(1, 0)))?;
    Subcore::new(alloc, CoreSere::Then(first, never))
}

// `{a;b}:{b;c}`
fn overlap(alloc: Global) -> Result<Subcore, AllocError> {
    let left = two_signals(alloc, 0, 1)?;
    let right = two_signals(alloc, 1, 2)?;
    Subcore::new(alloc, CoreSere::Fuse(left, right))
}

// `a | b`
fn either(alloc: Global) -> Result<Subcore, AllocError> {
    let left = signal(alloc, 0)?;
    let right = signal(alloc, 1)?;
    Subcore::new(alloc, CoreSere::Or(left, right))
}

// `{a;b} && {b;a}`
fn together(alloc: Global) -> Result<Subcore, AllocError> {
    let left = two_signals(alloc, 0, 1)?;
    let right = two_signals(alloc, 1, 0)?;
    Subcore::new(alloc, CoreSere::Both(left, right))
}

// `{[*0] | a}`
fn at_most_one(alloc: Global) -> Result<Subcore, AllocError> {
    let empty = Subcore::new(alloc, CoreSere::Empty)?;
    let one = signal(alloc, 0)?;
    Subcore::new(alloc, CoreSere::Or(empty, one))
}

fn sequence(alloc: Global, shape: Shape) -> Result<Subcore, AllocError> {
    match shape {
        Shape::ThenNever => then_never(alloc),
        Shape::Overlap => overlap(alloc),
        Shape::Either => either(alloc),
        Shape::Together => together(alloc),
        Shape::Repeated => Subcore::new(alloc, CoreSere::Star(signal(alloc, 0)?)),
        Shape::Pairs(count) => {
            let pair = two_signals(alloc, 0, 1)?;
            Subcore::new(alloc, CoreSere::Power(pair, count))
        }
        Shape::AtMost(count) => {
            let one = at_most_one(alloc)?;
            Subcore::new(alloc, CoreSere::Power(one, count))
        }
    }
}

// The signals are numbered as they come: a is symbol 0 in each of them.
pub(crate) fn table(alloc: Global, shape: Shape) -> Result<Table, AllocError> {
    let core = sequence(alloc, shape)?;
    let mut symbols = Symbols::new(alloc);
    build(alloc, core.get(), &mut symbols)
}
