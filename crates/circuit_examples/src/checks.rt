//! Checks of formulas that signals start and clear.

ghost use Rattle.circuit_core.specs.Netlist.{IsNet};
ghost use Rattle.circuit_examples.specs.Examples.{IsExample};

use crate::cycles::first_on;
use crate::formulas::{
    A, B, CLEAR, START, always, always_after_a, always_holds, and, holds, or, signal,
};
use circuit_core::{Check, Netlist};
use property_circuits::laws::check_at;
use psl_rewrite::Subbase;
use std::alloc::{AllocError, Global};
use std::test::Fail;

// The texts of a, b, the starts and the clears, and the first cycle in which the check fails.
pub(crate) type Row = ([&'static str; 4], Option<usize>);

const ALWAYS_AFTER_A: [Row; 4] = [
    // The start in cycle 1 sees cycle 4, not what stood before it.
    (["1101111", "0101000", "0100000", "0000010"], Some(4)),
    // A clear counts in its own cycle, and no start is left behind it.
    (["1101111", "0101000", "0100000", "0000100"], None),
    // A start in a cycle that is cleared is dropped at once; a later one isn't.
    (["1111111", "0000000", "1000100", "1000000"], Some(4)),
    // One that comes while another is open is not forgotten.
    (["0000001", "0000000", "0101000", "0000000"], Some(6)),
];

const ALWAYS_INSIDE: [Row; 3] = [
    (["0010000", "1011011", "1000000", "0000000"], Some(4)),
    // A clear drops the inner one too; the outer one has to be started again.
    (["0010000", "1011000", "1000010", "0000100"], None),
    (["0010010", "1011010", "1000010", "0000100"], Some(6)),
];

const ALWAYS_TWICE: [Row; 5] = [
    (["0000000", "1010111", "0010000", "0000000"], Some(3)),
    // A clear drops both, and counts in its own cycle.
    (["0000000", "1101011", "1100000", "0010000"], None),
    (["0000000", "1101011", "1100000", "0001000"], Some(2)),
    // A start after the clear opens both again.
    (["0000000", "1101011", "1001000", "0010000"], Some(4)),
    // A start in a cycle that is cleared is dropped at once.
    (["0000000", "1101011", "1010000", "0010000"], None),
];

const SIDES: [Row; 4] = [
    (["1000000", "1110111", "1000000", "0000000"], Some(3)),
    (["1000000", "1111111", "1010000", "0000000"], Some(2)),
    // A clear drops what is left of both sides.
    (["1000000", "1100000", "1000000", "0010000"], None),
    (["1000000", "1100111", "1000010", "0010000"], Some(5)),
];

const ALTERNATIVES: [Row; 3] = [
    (["0101", "0010", "0111", "0000"], None),
    (["0100", "0010", "0111", "0000"], Some(3)),
    (["0100", "0010", "0111", "0001"], None),
];

// The check of a formula, started and cleared by signals.
pub(crate) fn checked(alloc: Global, formula: &Subbase) -> Result<(Netlist, Check), AllocError>
    requires { IsExample formula.now }
{
    let widths = [1, 1, 1, 1].to_vec(alloc)?;
    let mut net = Netlist::new(alloc, widths)?;
    let start = net.guard(&signal(START))?;
    let clear = net.guard(&signal(CLEAR))?;
    let check = check_at(alloc, &mut net, formula.get(), start, clear)?;
    Ok((net, check))
}

// Whether the check fails in these cycles first, and never pends.
pub(crate) fn fails_as_told(
    alloc: Global,
    formula: &Subbase,
    rows: &[Row],
) -> Result<bool, AllocError>
    requires { IsExample formula.now }
{
    let (net, check) = checked(alloc, formula)?;
    for (texts, fails) in rows {
        let fail = first_on(alloc, &net, check.fail, texts, usize::MAX)?;
        let pend = first_on(alloc, &net, check.pend, texts, usize::MAX)?;
        if fail != *fails || pend.is_some() {
            return Ok(false);
        }
    }
    Ok(true)
}

#[test]
fn a_formula_is_checked_from_each_start_on(rt: HostRuntime) -> Result<(), Fail> {
    let body = holds(rt.alloc(), B)?;
    let formula = always_after_a(rt.alloc(), body)?;
    assert!(rt; fails_as_told(rt.alloc(), &formula, &ALWAYS_AFTER_A)?);
    Ok(())
}

#[test]
fn an_always_inside_another_is_open_from_its_test_on(rt: HostRuntime) -> Result<(), Fail> {
    let inner = always_holds(rt.alloc(), B)?;
    let formula = always_after_a(rt.alloc(), inner)?;
    assert!(rt; fails_as_told(rt.alloc(), &formula, &ALWAYS_INSIDE)?);
    Ok(())
}

#[test]
fn always_twice_is_always(rt: HostRuntime) -> Result<(), Fail> {
    let inner = always_holds(rt.alloc(), B)?;
    let formula = always(rt.alloc(), inner)?;
    assert!(rt; fails_as_told(rt.alloc(), &formula, &ALWAYS_TWICE)?);
    Ok(())
}

#[test]
fn sides_fail_each_on_its_own(rt: HostRuntime) -> Result<(), Fail> {
    let left = holds(rt.alloc(), A)?;
    let right = always_holds(rt.alloc(), B)?;
    let formula = and(rt.alloc(), left, right)?;
    assert!(rt; fails_as_told(rt.alloc(), &formula, &SIDES)?);
    Ok(())
}

#[test]
fn an_alternative_fails_where_both_do(rt: HostRuntime) -> Result<(), Fail> {
    let body = holds(rt.alloc(), B)?;
    let formula = or(rt.alloc(), A, body)?;
    assert!(rt; fails_as_told(rt.alloc(), &formula, &ALTERNATIVES)?);
    Ok(())
}
