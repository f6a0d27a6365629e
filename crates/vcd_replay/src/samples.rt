//! The values of ports before places of the changes.

ghost use Rattle.std.specs.Prelude.{◌≡◌, ◌≢◌, ◌<◌, ◌≤◌, ℕ, Some, None, OnOk, IfOk, length, slice_get, slice_set};
ghost use Rattle.std.specs.Prelude.{slice_index_or, MatchOption, All};
ghost use Rattle.vcd_reader.specs.declared.waveform.Change.{Change};
ghost use Rattle.vcd_replay.specs.inner.WalkView.{AreSamples};
ghost use Rattle.vcd_replay.specs.inner.Walk.{AreShort, AreFronts, IsTable, HasValue, HasNoValue, IsRowOf};

use crate::edges::Edge;
use crate::values::number;
use std::alloc::{AllocError, Global};
use vcd_reader::Change;

// Puts down the place of a change at its code, if the table has the code.
fn put(last: &mut [Option<usize>], code: usize, place: usize)
    ensures kept { length last.new ≡ length last.old }
    ensures here { code < length last.old → slice_index_or last.new code None ≡ Some place }
    ensures others { (other : ℕ) → other ≢ code
        → slice_index_or last.new other None ≡ slice_index_or last.old other None }
{
    if code < last.len() {
        last[code] = Some(place);
    }
}

// Puts the changes from one place up to another into the table of the last changes by code.
fn put_in(last: &mut [Option<usize>], changes: &[Change], from: usize, to: usize)
    requires rises { from ≤ to }
    requires within { to ≤ length changes.now }
    ensures kept { length last.new ≡ length last.old }
    ensures table { IsTable changes.now last.old from → IsTable changes.now last.new to }
{
    for place in from..to {
        put(last, changes[place].code, place);
    }
}

// The number that the last digits of a code write.
fn value(changes: &[Change], last: &[Option<usize>], code: usize) -> Option<u128>
    requires within { code < length last.now }
    requires short { AreShort changes.now code }
    requires known { (place : ℕ) × IsTable changes.now last.now place }
    ensures value { (place : ℕ) → IsTable changes.now last.now place
        → MatchOption result (HasNoValue changes.now code place) (HasValue changes.now code place) }
{
    match last[code] {
        None => None,
        Some(at) => number(changes[at].digits.bytes()),
    }
}

// Puts the values of the ports behind the others, or gives the first port without a value.
fn put_row(
    changes: &[Change],
    last: &[Option<usize>],
    codes: &[usize],
    values: &mut Vec<u128>,
) -> Result<Option<usize>, AllocError>
    requires within { All (λ code. code < length last.now) codes.now }
    requires short { All (λ code. AreShort changes.now code) codes.now }
    requires known { (place : ℕ) × IsTable changes.now last.now place }
    ensures row { IfOk result (λ unknown. (place : ℕ) → IsTable changes.now last.now place
        → IsRowOf changes.now codes.now place values.old.items values.new.items unknown) }
{
    for (port, code) in codes.iter().enumerate() {
        match value(changes, last, *code) {
            None => return Ok(Some(port)),
            Some(value) => values.push(value)?,
        }
    }
    Ok(None)
}

/// The values of the ports before the edges, edge by edge.
#[derive(Debug, Drop)]
pub enum Samples {
    Known(Vec<u128>),
    /// The first port without a value, by edge and then by port.
    Unknown { cycle: usize, port: usize },
}

/// The values of the ports of these codes. `last` is a table without a change.
pub fn sample_edges(
    alloc: Global,
    changes: &[Change],
    edges: &[Edge],
    codes: &[usize],
    last: &mut [Option<usize>],
) -> Result<Samples, AllocError>
    requires fronts { AreFronts changes.now edges.now }
    requires within { All (λ code. code < length last.old) codes.now }
    requires short { All (λ code. AreShort changes.now code) codes.now }
    requires table { IsTable changes.now last.old 0 }
    ensures samples { IfOk result (AreSamples changes.now edges.now codes.now) }
{
    let mut values = Vec::new(alloc);
    let mut done = 0;
    for (cycle, edge) in edges.iter().enumerate() {
        put_in(last, changes, done, edge.start);
        done = edge.start;
        match put_row(changes, last, codes, &mut values)? {
            Some(port) => return Ok(Samples::Unknown { cycle, port }),
            None => {}
        }
    }
    Ok(Samples::Known(values))
}
