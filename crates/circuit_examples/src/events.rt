//! The streams of gates of events, worked out by hand. The event is b, and what is looked for is a.

use crate::cycles::is_stream;
use crate::formulas::{A, B, CLEAR, START, signal};
use circuit_core::{Gate, Netlist};
use std::alloc::{AllocError, Global};
use std::test::Fail;
use strong_obligations::{event_chain, event_some};

// The texts of a, b, the starts and the clears, and the cycles in which the gate goes, fails and pends.
type Row = ([&'static str; 4], [&'static str; 3]);

// A body at the first and at the second event.
const FIRST_TWO: [Row; 4] = [
    // The start's own cycle counts.
    (
        ["0000000", "0101100", "0100000", "0000000"],
        ["0101000", "0000000", "0110000"],
    ),
    (
        ["0000000", "0010110", "0100000", "0000000"],
        ["0010100", "0000000", "0111000"],
    ),
    // Each start counts its own events.
    (
        ["00000", "10101", "10100", "00000"],
        ["10101", "00000", "11110"],
    ),
    // A clear drops what waits.
    (
        ["00000", "01010", "10000", "00100"],
        ["01000", "00000", "11000"],
    ),
];

// The expression at the first or at the second event.
const IN_TWO: [Row; 6] = [
    (
        ["0000000", "0101100", "0100000", "0000000"],
        ["0000000", "0001000", "0110000"],
    ),
    (
        ["0100000", "0101100", "0100000", "0000000"],
        ["0000000", "0000000", "0000000"],
    ),
    (
        ["0001000", "0101100", "0100000", "0000000"],
        ["0000000", "0000000", "0110000"],
    ),
    // In a cycle without the event it isn't looked for.
    (
        ["0010000", "0101100", "0100000", "0000000"],
        ["0000000", "0001000", "0110000"],
    ),
    // A start that was met hides none that isn't.
    (
        ["10000", "10101", "10100", "00000"],
        ["00000", "00001", "00110"],
    ),
    (
        ["00000", "01010", "10000", "00010"],
        ["00000", "00000", "11100"],
    ),
];

fn chain(alloc: Global) -> Result<(Netlist, Gate), AllocError> {
    let widths = [1, 1, 1, 1].to_vec(alloc)?;
    let mut net = Netlist::new(alloc, widths)?;
    let on = net.guard(&signal(B))?;
    let start = net.guard(&signal(START))?;
    let clear = net.guard(&signal(CLEAR))?;
    let gate = event_chain(&mut net, on, 1, 2, start, clear)?;
    Ok((net, gate))
}

fn some(alloc: Global) -> Result<(Netlist, Gate), AllocError> {
    let widths = [1, 1, 1, 1].to_vec(alloc)?;
    let mut net = Netlist::new(alloc, widths)?;
    let on = net.guard(&signal(B))?;
    let seen = net.guard(&signal(A))?;
    let start = net.guard(&signal(START))?;
    let clear = net.guard(&signal(CLEAR))?;
    let gate = event_some(&mut net, on, seen, 1, 2, start, clear)?;
    Ok((net, gate))
}

// Whether the gate goes, fails and pends in these cycles.
fn is_as_told(alloc: Global, net: &Netlist, gate: Gate, rows: &[Row]) -> Result<bool, AllocError> {
    for (texts, [goes, fails, pends]) in rows {
        if !is_stream(alloc, net, gate.go, texts, goes)?
            || !is_stream(alloc, net, gate.fail, texts, fails)?
            || !is_stream(alloc, net, gate.pend, texts, pends)?
        {
            return Ok(false);
        }
    }
    Ok(true)
}

#[test]
fn a_body_is_started_at_the_events_of_its_range(rt: HostRuntime) -> Result<(), Fail> {
    let (net, gate) = chain(rt.alloc())?;
    assert_eq!(rt; net.register_bits(), 2);
    assert!(rt; is_as_told(rt.alloc(), &net, gate, &FIRST_TWO)?);
    Ok(())
}

#[test]
fn an_expression_is_looked_for_at_the_events_of_its_range(rt: HostRuntime) -> Result<(), Fail> {
    let (net, gate) = some(rt.alloc())?;
    assert_eq!(rt; net.register_bits(), 2);
    assert!(rt; is_as_told(rt.alloc(), &net, gate, &IN_TWO)?);
    Ok(())
}
