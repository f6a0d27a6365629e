//! Checks of formulas whose body is started later, that signals start and clear.

ghost use Rattle.circuit_examples.specs.Examples.{IsExample};

use crate::checks::checked;
use crate::cycles::{first_on, is_stream};
use crate::formulas::{A, B, holds, next, next_all, until};
use psl_rewrite::Subbase;
use std::alloc::{AllocError, Global};
use std::test::Fail;

// The texts of a, b, the starts and the clears, the first cycle in which the check fails, and the cycles in which it
// pends.
type Row = ([&'static str; 4], Option<usize>, &'static str);

const NEXT_TWO_WEAK: [Row; 3] = [
    (["0000", "1101", "1000", "0000"], Some(2), "0000"),
    // Each start has its own cycle.
    (["00000", "00101", "11000", "00000"], Some(3), "00000"),
    (["0000", "0000", "1000", "0100"], None, "0000"),
];

const NEXT_TWO_STRONG: [Row; 3] = [
    (["00000", "00100", "10000", "00000"], None, "11000"),
    // A second start doesn't forget the first.
    (["00000", "00010", "11000", "00000"], Some(2), "11100"),
    (["0000", "0000", "1000", "0100"], None, "1000"),
];

const NEXT_ALL_STRONG: [Row; 3] = [
    (["0000", "0110", "1000", "0000"], None, "1100"),
    // The body is started in each cycle of the range.
    (["0000", "0100", "1000", "0000"], Some(2), "1100"),
    (["0000", "0010", "1000", "0000"], Some(1), "1100"),
];

const UNTIL_WEAK: [Row; 3] = [
    (["1100", "0000", "1000", "0000"], Some(2), "0000"),
    // The left side may fail in the cycle of the stop.
    (["1100", "0010", "1000", "0000"], None, "0000"),
    (["1000", "0000", "1000", "0100"], None, "0000"),
];

const UNTIL_STRONG: [Row; 3] = [
    (["11100", "00010", "10000", "00000"], None, "11100"),
    // It pends behind a second start too.
    (["11110", "00001", "10100", "00000"], None, "11110"),
    (["11110", "00000", "10000", "00100"], None, "11000"),
];

// Whether the check fails in these cycles first, and pends in these.
fn pends_as_told(alloc: Global, formula: &Subbase, rows: &[Row]) -> Result<bool, AllocError>
    requires { IsExample formula.now }
{
    let (net, check) = checked(alloc, formula)?;
    for (texts, fails, pends) in rows {
        let fail = first_on(alloc, &net, check.fail, texts, usize::MAX)?;
        if fail != *fails || !is_stream(alloc, &net, check.pend, texts, pends)? {
            return Ok(false);
        }
    }
    Ok(true)
}

#[test]
fn next_is_checked_two_cycles_later(rt: HostRuntime) -> Result<(), Fail> {
    let body = holds(rt.alloc(), B)?;
    let weak = next(rt.alloc(), false, 2, body)?;
    assert!(rt; pends_as_told(rt.alloc(), &weak, &NEXT_TWO_WEAK)?);
    Ok(())
}

#[test]
fn a_strong_next_pends_until_then(rt: HostRuntime) -> Result<(), Fail> {
    let body = holds(rt.alloc(), B)?;
    let strong = next(rt.alloc(), true, 2, body)?;
    assert!(rt; pends_as_told(rt.alloc(), &strong, &NEXT_TWO_STRONG)?);
    Ok(())
}

#[test]
fn next_a_is_checked_in_each_cycle_of_its_range(rt: HostRuntime) -> Result<(), Fail> {
    let body = holds(rt.alloc(), B)?;
    let all = next_all(rt.alloc(), true, 1, 2, body)?;
    assert!(rt; pends_as_told(rt.alloc(), &all, &NEXT_ALL_STRONG)?);
    Ok(())
}

#[test]
fn until_is_checked_up_to_its_stop(rt: HostRuntime) -> Result<(), Fail> {
    let body = holds(rt.alloc(), A)?;
    let weak = until(rt.alloc(), false, body, B)?;
    assert!(rt; pends_as_told(rt.alloc(), &weak, &UNTIL_WEAK)?);
    Ok(())
}

#[test]
fn a_strong_until_pends_until_its_stop(rt: HostRuntime) -> Result<(), Fail> {
    let body = holds(rt.alloc(), A)?;
    let strong = until(rt.alloc(), true, body, B)?;
    assert!(rt; pends_as_told(rt.alloc(), &strong, &UNTIL_STRONG)?);
    Ok(())
}
