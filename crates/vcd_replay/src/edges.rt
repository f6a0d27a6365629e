//! The rising edges of a clock.

ghost use Rattle.std.specs.Prelude.{◌≡◌, ◌≢◌, ◌+◌, slice_get, Some, IsTrue, IsFalse, OnOk, IfOk, length};
ghost use Rattle.std.specs.Prelude.{slice_index_or};
ghost use Rattle.vcd_reader.specs.declared.waveform.Change.{Change};
ghost use Rattle.vcd_reader.specs.Sound.{AreInOrder};
ghost use Rattle.vcd_replay.specs.inner.Walk.{AreBits, IsNoted, HasEdges};

use std::alloc::{AllocError, Global};
use vcd_reader::Change;

/// A rising edge.
#[derive(Clone, Copy, Debug)]
pub struct Edge {
    pub time: u64,
    /// How many changes come before the time.
    pub start: usize,
}

// No change of the time is at the place.
fn ends_group(changes: &[Change], place: usize, time: u64) -> bool
    ensures ends { IsTrue result → (later : Change) → slice_get changes.now place ≡ Some later → later.time ≢ time }
    ensures goes_on { IsFalse result
        → (later : Change) × (slice_get changes.now place ≡ Some later) × (later.time ≡ time) }
{
    match changes.get(place) {
        None => true,
        Some(later) => later.time != time,
    }
}

// The clock's digit behind a change.
fn next_digit(change: &Change, clock: usize, digit: u8) -> u8
    requires one { change.now.code ≡ clock → length change.now.digits ≡ 1 }
    ensures same { change.now.code ≡ clock → result ≡ slice_index_or change.now.digits 0 0 }
    ensures other { change.now.code ≢ clock → result ≡ digit }
{
    if change.code == clock {
        change.digits.bytes()[0]
    } else {
        digit
    }
}

// Adds the edge if the clock rises.
fn note(edges: &mut Vec<Edge>, before: u8, digit: u8, edge: Edge) -> Result<(), AllocError>
    ensures noted { OnOk result (IsNoted edges.old.items edges.new.items before digit edge) }
{
    if before == b'0' && digit == b'1' {
        edges.push(edge)?;
    }
    Ok(())
}

/// All edges of a clock, which has one bit, in the order of their times.
pub fn edges(alloc: Global, changes: &[Change], clock: usize) -> Result<Vec<Edge>, AllocError>
    requires in_order { AreInOrder changes.now }
    requires bits { AreBits changes.now clock }
    ensures edges { IfOk result (λ edges. HasEdges changes.now clock edges.items) }
{
    let mut edges = Vec::new(alloc);
    let mut before = b'x';
    let mut digit = b'x';
    let mut start = 0;
    for (place, change) in changes.iter().enumerate() {
        digit = next_digit(change, clock, digit);
        if ends_group(changes, place + 1, change.time) {
            note(
                &mut edges,
                before,
                digit,
                Edge {
                    time: change.time,
                    start,
                },
            )?;
            before = digit;
            start = place + 1;
        }
    }
    Ok(edges)
}
