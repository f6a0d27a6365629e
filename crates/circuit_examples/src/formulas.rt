//! Formulas over signals of one bit: a, b, the one that starts and the one that clears.

ghost use Rattle.std.specs.Prelude.{◌<◌, ◌≤◌, IfOk};
ghost use Rattle.psl_model.specs.View.{expr_of};
ghost use Rattle.circuit_core.specs.WellMade.{IsGuard};
ghost use Rattle.circuit_examples.specs.Examples.{IsExample, IsWritten, signal_widths};

use psl_model::{Expr, Sere, Subsere};
use psl_rewrite::{Base, Subbase};
use std::alloc::{AllocError, Global};

pub(crate) const A: usize = 0;

pub(crate) const B: usize = 1;

pub(crate) const START: usize = 2;

pub(crate) const CLEAR: usize = 3;

pub(crate) fn signal(place: usize) -> Expr
    requires { place < 4 }
    ensures { IsGuard signal_widths (expr_of result) }
{
    Expr::Whole(place)
}

pub(crate) fn holds(alloc: Global, place: usize) -> Result<Subbase, AllocError>
    requires { place < 4 }
    ensures { IfOk result (λ f. IsExample f) }
{
    Subbase::new(alloc, Base::Bool(signal(place)))
}

pub(crate) fn always(alloc: Global, body: Subbase) -> Result<Subbase, AllocError>
    requires body { IsExample body }
    ensures { IfOk result (λ f. IsExample f) }
{
    Subbase::new(alloc, Base::Always(body))
}

pub(crate) fn implies(alloc: Global, place: usize, body: Subbase) -> Result<Subbase, AllocError>
    requires place { place < 4 }
    requires body { IsExample body }
    ensures { IfOk result (λ f. IsExample f) }
{
    Subbase::new(alloc, Base::Implies(signal(place), body))
}

pub(crate) fn or(alloc: Global, place: usize, body: Subbase) -> Result<Subbase, AllocError>
    requires place { place < 4 }
    requires body { IsExample body }
    ensures { IfOk result (λ f. IsExample f) }
{
    Subbase::new(alloc, Base::OrBool(signal(place), body))
}

pub(crate) fn and(alloc: Global, left: Subbase, right: Subbase) -> Result<Subbase, AllocError>
    requires left { IsExample left }
    requires right { IsExample right }
    ensures { IfOk result (λ f. IsExample f) }
{
    Subbase::new(alloc, Base::And(left, right))
}

// both formulas, whatever their sequences
pub(crate) fn both(alloc: Global, left: Subbase, right: Subbase) -> Result<Subbase, AllocError>
    requires left { IsWritten left }
    requires right { IsWritten right }
    ensures { IfOk result (λ f. IsWritten f) }
{
    Subbase::new(alloc, Base::And(left, right))
}

// always a signal
pub(crate) fn always_holds(alloc: Global, place: usize) -> Result<Subbase, AllocError>
    requires { place < 4 }
    ensures { IfOk result (λ f. IsExample f) }
{
    let body = holds(alloc, place)?;
    always(alloc, body)
}

// always (a -> body)
pub(crate) fn always_after_a(alloc: Global, body: Subbase) -> Result<Subbase, AllocError>
    requires body { IsExample body }
    ensures { IfOk result (λ f. IsExample f) }
{
    let test = implies(alloc, A, body)?;
    always(alloc, test)
}

pub(crate) fn next(
    alloc: Global,
    strong: bool,
    count: u32,
    body: Subbase,
) -> Result<Subbase, AllocError>
    requires body { IsExample body }
    ensures { IfOk result (λ f. IsExample f) }
{
    Subbase::new(
        alloc,
        Base::Next {
            strong,
            count,
            body,
        },
    )
}

pub(crate) fn next_all(
    alloc: Global,
    strong: bool,
    low: u32,
    high: u32,
    body: Subbase,
) -> Result<Subbase, AllocError>
    requires ordered { low ≤ high }
    requires body { IsExample body }
    ensures { IfOk result (λ f. IsExample f) }
{
    Subbase::new(
        alloc,
        Base::NextAll {
            strong,
            low,
            high,
            body,
        },
    )
}

pub(crate) fn until(
    alloc: Global,
    strong: bool,
    body: Subbase,
    stop: usize,
) -> Result<Subbase, AllocError>
    requires stop { stop < 4 }
    requires body { IsExample body }
    ensures { IfOk result (λ f. IsExample f) }
{
    let stop = signal(stop);
    Subbase::new(alloc, Base::Until { strong, body, stop })
}

// {a[*count]} |-> body, whatever the count
pub(crate) fn written_after(alloc: Global, count: u32, body: Subbase) -> Result<Subbase, AllocError>
    requires body { IsWritten body }
    ensures { IfOk result (λ f. IsWritten f) }
{
    let each = Subsere::new(alloc, Sere::Bool(signal(A)))?;
    let sere = Sere::Repeat(each, count, Some(count));
    Subbase::new(alloc, Base::Suffix(sere, body))
}

// {a[*3]} |-> body
pub(crate) fn after_three(alloc: Global, body: Subbase) -> Result<Subbase, AllocError>
    requires body { IsExample body }
    ensures { IfOk result (λ f. IsExample f) }
{
    let each = Subsere::new(alloc, Sere::Bool(signal(A)))?;
    let sere = Sere::Repeat(each, 3, Some(3));
    Subbase::new(alloc, Base::Suffix(sere, body))
}

// 2 to the power of `depth` formulas joined by `&&`: `always a`, and once `last`.
pub(crate) fn many(alloc: Global, depth: u32, last: Subbase) -> Result<Subbase, AllocError>
    requires last { IsExample last }
    ensures { IfOk result (λ f. IsExample f) }
{
    if depth == 0 {
        return Ok(last);
    }
    let other = always_holds(alloc, A)?;
    let left = many(alloc, depth - 1, other)?;
    let right = many(alloc, depth - 1, last)?;
    and(alloc, left, right)
}
