//! Traces of wanted signals, sampled at a clock's edges.

ghost use Rattle.std.specs.Prelude.{◌≡◌, ◌≤◌, ◌<◌, IfOk, IfSome, All, length};
ghost use Rattle.vcd_reader.specs.Sound.{AreInOrder, IsSound};
ghost use Rattle.vcd_replay.specs.inner.Walk.{AreBits, AreShort, AreFronts};
ghost use Rattle.vcd_replay.specs.inner.WalkView.{AreSamples};
ghost use Rattle.vcd_replay.specs.inner.TraceView.{AnswersTrace};
ghost use Rattle.vcd_replay.specs.Sampling.{Answers};

use crate::edges::{Edge, edges};
use crate::ports::{has_scope, port, ports};
use crate::samples::{Samples, sample_edges};
use crate::trace::{SampleError, Trace};
use psl_model::Signal;
use std::alloc::{AllocError, Global};
use vcd_reader::{Change, Var, Vcd};

// How long a table is that has all these codes.
fn room(codes: &[usize]) -> Option<usize>
    ensures all { IfSome result (λ room. All (λ code. code < room) codes.now) }
{
    let mut room = 0;
    for code in codes {
        if *code == usize::MAX {
            return None;
        }
        if *code >= room {
            room = *code + 1;
        }
    }
    Some(room)
}

// The values of the ports of these codes before the edges.
fn samples_before(
    alloc: Global,
    changes: &[Change],
    edges: &[Edge],
    codes: &[usize],
) -> Result<Samples, AllocError>
    requires fronts { AreFronts changes.now edges.now }
    requires short { All (λ code. AreShort changes.now code) codes.now }
    ensures samples { IfOk result (AreSamples changes.now edges.now codes.now) }
{
    match room(codes) {
        None => Err(AllocError),
        Some(room) => {
            let mut last: Vec<Option<usize>> = vec![in alloc; None; room]?;
            sample_edges(alloc, changes, edges, codes, last.as_mut_slice())
        }
    }
}

// The trace of the ports of these codes.
fn trace_ports(
    alloc: Global,
    changes: &[Change],
    clock: usize,
    codes: &[usize],
    wanted: &[Signal],
    skip: usize,
) -> Result<Trace, SampleError>
    requires in_order { AreInOrder changes.now }
    requires bits { AreBits changes.now clock }
    requires short { All (λ code. AreShort changes.now code) codes.now }
    requires wide { length codes.now ≡ length wanted.now }
    ensures answers { AnswersTrace changes.now clock codes.now wanted.now skip result }
{
    match edges(alloc, changes, clock) {
        Err(_) => Err(SampleError::OutOfMemory),
        Ok(all) => {
            if all.len() <= skip {
                return Err(SampleError::NoCycles);
            }
            let (_, counted) = all.as_slice().split_at(skip);
            match samples_before(alloc, changes, counted, codes) {
                Err(_) => Err(SampleError::OutOfMemory),
                Ok(Samples::Known(values)) => {
                    Ok(Trace {
                        cycles: counted.len() as u64,
                        ports: codes.len(),
                        values,
                    })
                }
                Ok(Samples::Unknown { cycle, port }) => match wanted[port].name.copy(alloc) {
                    Err(_) => Err(SampleError::OutOfMemory),
                    Ok(name) => Err(SampleError::UnknownValue {
                        cycle: cycle as u64,
                        name,
                    }),
                },
            }
        }
    }
}

// The trace that is sampled from these variables and changes.
fn sample_from(
    alloc: Global,
    vars: &[Var],
    changes: &[Change],
    scope: &[u8],
    clock: &[u8],
    wanted: &[Signal],
    skip: usize,
) -> Result<Trace, SampleError>
    requires lawful { IsSound (record { vars = vars.now; changes = changes.now }) }
    requires narrow { All (λ signal. signal.width ≤ 64) wanted.now }
    ensures answers { Answers (record {
      vars = vars.now;
      changes = changes.now;
      scope = scope.now;
      clock = clock.now;
      wanted = wanted.now;
      skip = skip;
    }) result }
{
    if !has_scope(vars, scope) {
        return Err(SampleError::NoScope);
    }
    match port(alloc, vars, scope, clock, 1) {
        Err(error) => Err(error),
        Ok(clock) => match ports(alloc, vars, scope, wanted) {
            Err(error) => Err(error),
            Ok(codes) => trace_ports(alloc, changes, clock, codes.as_slice(), wanted, skip),
        },
    }
}

/// The values of the wanted signals before each rising edge of the clock behind the skipped edges. The clock has one
/// bit, and the wanted signals have at most 64.
pub fn sample(
    alloc: Global,
    vcd: &Vcd,
    scope: &[u8],
    clock: &[u8],
    wanted: &[Signal],
    skip: u32,
) -> Result<Trace, SampleError>
    requires lawful { IsSound (record { vars = vcd.now.vars.items; changes = vcd.now.changes.items }) }
    requires narrow { All (λ signal. signal.width ≤ 64) wanted.now }
    ensures answers { Answers (record {
      vars = vcd.now.vars.items;
      changes = vcd.now.changes.items;
      scope = scope.now;
      clock = clock.now;
      wanted = wanted.now;
      skip = skip;
    }) result }
{
    let vars = vcd.vars.as_slice();
    let changes = vcd.changes.as_slice();
    sample_from(alloc, vars, changes, scope, clock, wanted, skip as usize)
}
