//! `always (d abort b[2])`, where `b` is signal 1 and `d` signal 3 of five.

use port_formulas::{over_places, used_places};
use psl_model::{Expr, Formula, Subformula};
use std::alloc::{AllocError, Global};

fn formula(alloc: Global) -> Result<Formula, AllocError> {
    let d = Subformula::new(alloc, Formula::Bool(Expr::Whole(3)))?;
    let aborted = Subformula::new(alloc, Formula::Abort(d, Expr::Bit(1, 2)))?;
    Ok(Formula::Always(aborted))
}

fn is_signal(formula: &Formula, number: usize) -> bool {
    matches!(formula, Formula::Bool(Expr::Whole(signal)) if *signal == number)
}

fn is_aborted(formula: &Formula, body: usize, on: usize) -> bool {
    match formula {
        Formula::Abort(inner, Expr::Bit(signal, 2)) => *signal == on
            && is_signal(inner.get(), body),
        _ => false,
    }
}

fn is_always_aborted(formula: &Formula, body: usize, on: usize) -> bool {
    match formula {
        Formula::Always(inner) => is_aborted(inner.get(), body, on),
        _ => false,
    }
}

fn uses_1_and_3(alloc: Global, formula: &Formula) -> bool {
    match used_places(alloc, 5, formula) {
        Ok(places) => places.as_slice() == [1, 3].as_slice(),
        Err(_) => false,
    }
}

fn has_ports_in_order(alloc: Global, formula: &Formula) -> bool {
    match over_places(alloc, &[1, 3], formula) {
        Ok(over) => is_always_aborted(&over, 1, 0),
        Err(_) => false,
    }
}

// Whether the formula is made, and each of its two answers is right.
fn both_are_right(alloc: Global) -> bool {
    match formula(alloc) {
        Ok(formula) => uses_1_and_3(alloc, &formula) && has_ports_in_order(alloc, &formula),
        Err(_) => false,
    }
}

#[test]
fn the_ports_are_the_used_signals_in_their_order(rt: HostRuntime) {
    assert!(rt; both_are_right(rt.alloc()));
}
