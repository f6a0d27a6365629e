//! The net that tells where a table accepts.

ghost use Rattle.std.specs.Prelude.{◌≡◌, ◌↔◌, ◌<◌, ◌≤◌, ℕ, Some, IfOk, OnOk, All, IsTrue, false, length, slice_get};
ghost use Rattle.std.specs.Prelude.{slice_index_or};
ghost use Rattle.auto_core.specs.Graph.{graph_machine};
ghost use Rattle.circuit_core.specs.Netlist as plain;
ghost use Rattle.circuit_core.specs.Netlist.{IsNet};
ghost use Rattle.circuit_core.specs.Run.{On, InEachCycle};
ghost use Rattle.circuit_core.specs.Growth.{Extends, Grows};
ghost use Rattle.sequence_circuits.specs.Guards.{numbers};
ghost use Rattle.sequence_circuits.specs.Detection.{letter_at, IsDetected};
ghost use Rattle.sequence_circuits.specs.inner.Nets.{stream_at};

use crate::edges::arrival_nets;
use crate::states::{make_states, or_if, set_nexts};
use auto_core::{Auto, Table};
use circuit_core::{Net, Netlist};
use std::alloc::{AllocError, Global};

// On where something arrives at an accepting state.
fn accepted_net(net: &mut Netlist, table: &Table, arrivals: &[Net]) -> Result<Net, AllocError>
    requires arrivals { All (λ k. IsNet net.old k.0) arrivals.now }
    requires size { length arrivals.now ≡ length table.now.accepting }
    ensures kept { Extends net.old net.new }
    ensures registers { net.new.registers ≡ net.old.registers }
    ensures net { IfOk result (λ k. IsNet net.new k.0) }
    ensures stream { IfOk result (λ k. InEachCycle net.new (λ run n. On (run k.0) n ↔
        ((s : ℕ) × (s < length table.now.accepting) × (IsTrue (slice_index_or table.now.accepting s false)
        × On (stream_at run (numbers arrivals.now) s) n)))) }
{
    let mut found = net.bit(false)?;
    for state in 0..table.states() {
        found = or_if(net, found, table.accepts(state), arrivals[state as usize])?;
    }
    Ok(found)
}

/// On in each cycle up to which some start has no cleared cycle, its own and this one included, if the table accepts
/// what the guards show from that start to this cycle. `guards` has a net for each symbol, by the symbol's number.
///
/// It makes a register of one bit for each state of the table. Time and memory grow with the number of states, edges
/// and literals: edges that lead to one state under one label share a conjunction.
pub fn detect(
    alloc: Global,
    net: &mut Netlist,
    table: &Table,
    guards: &[Net],
    start: Net,
    clear: Net,
) -> Result<Net, AllocError>
    requires guards { All (λ k. IsNet net.old k.0) guards.now }
    requires symbols { All (λ e. All (λ l. l.symbol < length guards.now) e.label) table.now.edges }
    requires start { IsNet net.old start.0 }
    requires clear { IsNet net.old clear.0 }
    ensures kept { Extends net.old net.new }
    ensures grows { OnOk result (Grows net.old net.new (length table.now.accepting)) }
    ensures net { IfOk result (λ k. IsNet net.new k.0) }
    ensures stream { IfOk result (λ k. InEachCycle net.new (λ run n. On (run k.0) n ↔
        IsDetected (graph_machine table.now) (letter_at run (numbers guards.now)) (run start.0) (run clear.0) n)) }
{
    let edges = table.edges();
    let uncleared = net.not(clear)?;
    let states = make_states(alloc, net, table.states() as usize, start, uncleared)?;
    let arrivals = arrival_nets(alloc, net, edges, guards, states.as_slice())?;
    let found = accepted_net(net, table, arrivals.as_slice())?;
    set_nexts(net, states.as_slice(), arrivals.as_slice());
    Ok(found)
}
