//! The nets that tell where the runs of an automaton of rows fail, and where they go on.

ghost use Rattle.std.specs.Prelude.{◌≡◌, ◌↔◌, ◌<◌, ◌≤◌, ℕ, IfOk, OnOk, All, length};
ghost use Rattle.first_failure.specs.FirstFailure.{IsWhole};
ghost use Rattle.circuit_core.specs.Netlist.{IsNet};
ghost use Rattle.circuit_core.specs.Run.{On, InEachRun, InEachCycle};
ghost use Rattle.circuit_core.specs.Growth.{Extends, Grows};
ghost use Rattle.circuit_core.specs.Starts.{Answers};
ghost use Rattle.sequence_circuits.specs.Guards.{numbers, values_at};
ghost use Rattle.sequence_circuits.specs.Obligation.{HasFailed, GoesOn};
ghost use Rattle.sequence_circuits.specs.inner.Nets.{stream_at};

use crate::moves::row_arrivals;
use crate::states::{make_states, set_nexts};
use circuit_core::{Check, Net, Netlist};
use first_failure::FailAuto;
use std::alloc::{AllocError, Global};

// On where one of so many nets is.
fn any_net(net: &mut Netlist, nets: &[Net], count: usize) -> Result<Net, AllocError>
    requires nets { All (λ k. IsNet net.old k.0) nets.now }
    requires count { count ≤ length nets.now }
    ensures kept { Extends net.old net.new }
    ensures registers { net.new.registers ≡ net.old.registers }
    ensures net { IfOk result (λ k. IsNet net.new k.0) }
    ensures stream { IfOk result (λ k. InEachCycle net.new (λ run n. On (run k.0) n ↔
        ((s : ℕ) × (s < count) × On (stream_at run (numbers nets.now) s) n))) }
{
    let mut any = net.bit(false)?;
    for place in 0..count {
        any = net.or(any, nets[place])?;
    }
    Ok(any)
}

/// The check of an automaton of rows, one run of which begins in row 0 at each start and is dropped in the first cycle
/// that is cleared. It fails where a run comes to a failure, and it pends where a run is still in a row. `guards` has a
/// net for each symbol, by the symbol's number.
///
/// It makes a register of one bit for each row. Time and memory grow with the number of entries of all rows.
pub fn oblige(
    alloc: Global,
    net: &mut Netlist,
    automaton: &FailAuto,
    guards: &[Net],
    start: Net,
    clear: Net,
) -> Result<Check, AllocError>
    requires guards { All (λ k. IsNet net.old k.0) guards.now }
    requires whole { IsWhole automaton.now }
    requires symbols { All (λ row. All (λ s. s < length guards.now) row.symbols) automaton.now.rows }
    requires start { IsNet net.old start.0 }
    requires clear { IsNet net.old clear.0 }
    ensures kept { Extends net.old net.new }
    ensures grows { OnOk result (Grows net.old net.new (length automaton.now.rows)) }
    ensures fail_net { IfOk result (λ check. IsNet net.new check.fail.0) }
    ensures pend_net { IfOk result (λ check. IsNet net.new check.pend.0) }
    ensures check { IfOk result (λ check. InEachRun net.new (λ inputs run. Answers (length inputs.trace)
        (HasFailed automaton.now (values_at run (numbers guards.now)))
        (GoesOn automaton.now (values_at run (numbers guards.now)))
        (run start.0) (run clear.0) (run check.fail.0) (run check.pend.0))) }
{
    let rows = automaton.rows.as_slice();
    let uncleared = net.not(clear)?;
    let states = make_states(alloc, net, rows.len(), start, uncleared)?;
    let arrivals = row_arrivals(alloc, net, rows, guards, states.as_slice())?;
    let fail = arrivals[rows.len()];
    let pend = any_net(net, arrivals.as_slice(), rows.len())?;
    set_nexts(net, states.as_slice(), arrivals.as_slice());
    Ok(Check { fail, pend })
}
