//! Labels and numbers of some expressions.

use super::*;
use auto_core::Label;
use psl_model::{Expr, Subexpr, UnOp};
use std::alloc::{AllocError, Global};
use std::test::Fail;

// The label of a signal, or of `1'd1` where there is none, below so many `!`.
fn labelled(
    alloc: Global,
    symbols: &mut Symbols,
    nots: u32,
    signal: Option<usize>,
) -> Result<Label, AllocError> {
    let mut expr = match signal {
        Some(signal) => Expr::Whole(signal),
        None => Expr::Sized(1, 1),
    };
    for _ in 0..nots {
        expr = Expr::Unary(UnOp::Not, Subexpr::new(alloc, expr)?);
    }
    symbols.label(alloc, &expr)
}

#[test]
fn expressions_are_numbered_as_first_seen(rt: HostRuntime) -> Result<(), Fail> {
    let alloc = rt.alloc();
    let mut symbols = Symbols::new(alloc);
    // how many `!`, the signal, the literal's symbol and sign, and how many symbols there are then
    for (nots, signal, literal, count) in [
        (0, Some(3), Some((0, true)), 1),
        (1, Some(3), Some((0, false)), 1),
        (2, Some(3), Some((0, true)), 1),
        (0, None, None, 1),
        (2, None, None, 1),
        (3, Some(5), Some((1, false)), 2),
        (1, None, Some((2, false)), 3),
        (0, None, None, 3),
        (0, Some(3), Some((0, true)), 3),
    ] {
        let label = labelled(alloc, &mut symbols, nots, signal)?;
        let found = label.literals().first().map(|l| (l.symbol, l.positive));
        assert!(rt;
            found == literal && label.literals().len() < 2,
            "{nots} before {signal:?}"
        );
        assert_eq!(rt; symbols.count(), count);
    }
    assert!(rt; matches!(symbols.get(0), Some(Expr::Whole(3))));
    assert!(rt; matches!(symbols.get(1), Some(Expr::Whole(5))));
    assert!(rt; matches!(symbols.get(2), Some(Expr::Sized(1, 1))));
    assert!(rt; symbols.get(3).is_none());
    Ok(())
}
