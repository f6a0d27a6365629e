//! The streams of gates, worked out by hand.

ghost use Rattle.std.specs.Prelude.{◌≤◌};

use crate::cycles::is_stream;
use crate::formulas::{B, CLEAR, START, signal};
use circuit_core::{Gate, Netlist};
use std::alloc::{AllocError, Global};
use std::test::Fail;
use strong_obligations::{next_chain, until_gate};

// The texts of a, b, the starts and the clears, and the cycles in which the gate goes and in which it pends.
type Row = ([&'static str; 4], &'static str, &'static str);

// From one to two cycles later.
const ONE_TO_TWO: [Row; 5] = [
    (
        ["0000000", "0000000", "0100000", "0000000"],
        "0011000",
        "0110000",
    ),
    // Each start has its own cycles.
    (["000000", "000000", "101000", "000000"], "011110", "111100"),
    // A clear drops what waits, in its own cycle too.
    (["00000", "00000", "10000", "00100"], "01000", "11000"),
    (["00000", "00000", "11000", "01000"], "00000", "10000"),
    // A start behind the clear waits anew.
    (["000000", "000000", "100100", "010000"], "000011", "100110"),
];

// In the cycle of the start.
const AT_ONCE: [Row; 1] = [(["0000", "0000", "1011", "0001"], "1010", "0000")];

const UNTIL_B: [Row; 5] = [
    // The cycle of the stop isn't one of the body's.
    (
        ["0000000", "0000100", "0100000", "0000000"],
        "0111000",
        "0111000",
    ),
    // Nor is that of a start which is stopped at once.
    (["0000", "1001", "1001", "0000"], "0000", "0000"),
    // A second start changes nothing for the first.
    (["00000", "00001", "10100", "00000"], "11110", "11110"),
    (["00000", "00000", "10000", "00100"], "11000", "11000"),
    (["00000", "00000", "10010", "00100"], "11011", "11011"),
];

fn chain(alloc: Global, low: u32, high: u32) -> Result<(Netlist, Gate), AllocError>
    requires { low ≤ high }
{
    let widths = [1, 1, 1, 1].to_vec(alloc)?;
    let mut net = Netlist::new(alloc, widths)?;
    let start = net.guard(&signal(START))?;
    let clear = net.guard(&signal(CLEAR))?;
    let gate = next_chain(&mut net, low, high, start, clear)?;
    Ok((net, gate))
}

fn until_b(alloc: Global) -> Result<(Netlist, Gate), AllocError> {
    let widths = [1, 1, 1, 1].to_vec(alloc)?;
    let mut net = Netlist::new(alloc, widths)?;
    let stop = net.guard(&signal(B))?;
    let start = net.guard(&signal(START))?;
    let clear = net.guard(&signal(CLEAR))?;
    let gate = until_gate(&mut net, stop, start, clear)?;
    Ok((net, gate))
}

// Whether the gate goes and pends in these cycles, and never fails.
fn goes_as_told(
    alloc: Global,
    net: &Netlist,
    gate: Gate,
    rows: &[Row],
) -> Result<bool, AllocError> {
    for (texts, goes, pends) in rows {
        if !is_stream(alloc, net, gate.go, texts, goes)?
            || !is_stream(alloc, net, gate.pend, texts, pends)?
            || !is_stream(alloc, net, gate.fail, texts, "0000000")?
        {
            return Ok(false);
        }
    }
    Ok(true)
}

#[test]
fn a_chain_starts_its_body_in_each_cycle_of_its_range(rt: HostRuntime) -> Result<(), Fail> {
    let (net, gate) = chain(rt.alloc(), 1, 2)?;
    assert_eq!(rt; net.register_bits(), 2);
    assert!(rt; goes_as_told(rt.alloc(), &net, gate, &ONE_TO_TWO)?);
    Ok(())
}

#[test]
fn a_chain_of_no_cycle_starts_its_body_at_once(rt: HostRuntime) -> Result<(), Fail> {
    let (net, gate) = chain(rt.alloc(), 0, 0)?;
    assert_eq!(rt; net.register_bits(), 0);
    assert!(rt; goes_as_told(rt.alloc(), &net, gate, &AT_ONCE)?);
    Ok(())
}

#[test]
fn a_gate_goes_until_it_is_stopped(rt: HostRuntime) -> Result<(), Fail> {
    let (net, gate) = until_b(rt.alloc())?;
    assert_eq!(rt; net.register_bits(), 1);
    assert!(rt; goes_as_told(rt.alloc(), &net, gate, &UNTIL_B)?);
    Ok(())
}
