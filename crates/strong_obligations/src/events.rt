//! Bodies that are started, and expressions that are looked at, in cycles with an event.

ghost use Rattle.std.specs.Prelude.{◌≡◌, ◌↔◌, ◌≤◌, ◌+◌, IfOk, OnOk};
ghost use Rattle.circuit_core.specs.Netlist.{IsNet};
ghost use Rattle.circuit_core.specs.Run.{On, InEachCycle};
ghost use Rattle.circuit_core.specs.Growth.{Extends, Grows};
ghost use Rattle.circuit_core.specs.Starts.{ComesBy};
ghost use Rattle.strong_obligations.specs.Bits.{register_bits};
ghost use Rattle.strong_obligations.specs.Events.{IsDueEvent, IsAwaitedEvent, IsMissedBy, IsUnseen};

use crate::counts::{Counted, count_of};
use crate::laws::each_register_has_one_bit;
use circuit_core::laws::{a_netlist_is_well_made, extensions_join, growths_join};
use circuit_core::{Gate, Net, Netlist};
use std::alloc::AllocError;

// The gate of a body, told by its registers.
fn gate_of_events(
    net: &mut Netlist,
    on: Net,
    low: u32,
    high: u32,
    start: Net,
    clear: Net,
) -> Result<Gate, AllocError>
    requires some { 1 ≤ high }
    requires on { IsNet net.old on.0 }
    requires start { IsNet net.old start.0 }
    requires clear { IsNet net.old clear.0 }
    ensures kept { Extends net.old net.new }
    ensures grows { OnOk result (Grows net.old net.new high) }
    ensures go_net { IfOk result (λ g. IsNet net.new g.go.0) }
    ensures fail_net { IfOk result (λ g. IsNet net.new g.fail.0) }
    ensures pend_net { IfOk result (λ g. IsNet net.new g.pend.0) }
    ensures go { IfOk result (λ g. InEachCycle net.new (λ run n.
        On (run g.go.0) n ↔ IsDueEvent (run on.0) low high (run start.0) (run clear.0) n)) }
    ensures fail { IfOk result (λ g. InEachCycle net.new (λ run n. ¬ On (run g.fail.0) n)) }
    ensures pend { IfOk result (λ g. InEachCycle net.new (λ run n.
        On (run g.pend.0) n ↔ IsAwaitedEvent (run on.0) high (run start.0) (run clear.0) n)) }
{
    growths_join();
    extensions_join();
    let uncleared = net.not(clear)?;
    let quiet = net.not(on)?;
    let nets = Counted {
        on,
        quiet,
        late: on,
        uncleared,
    };
    let count = count_of(net, nets, low, low, high, start)?;
    let fail = net.bit(false)?;
    Ok(Gate {
        go: count.due,
        fail,
        pend: count.waiting,
    })
}

/// The gate of a body that is started in each cycle in which `on` is on for the `low`-th to the `high`-th time since an
/// open start, the start's own cycle included. It pends where `on` was on less than `high` times since an open start,
/// and never fails.
///
/// It makes `high` registers of one bit each. Time and memory grow with `high`.
pub fn event_chain(
    net: &mut Netlist,
    on: Net,
    low: u32,
    high: u32,
    start: Net,
    clear: Net,
) -> Result<Gate, AllocError>
    requires some { 1 ≤ low }
    requires ordered { low ≤ high }
    requires on { IsNet net.old on.0 }
    requires start { IsNet net.old start.0 }
    requires clear { IsNet net.old clear.0 }
    ensures kept { Extends net.old net.new }
    ensures grows { OnOk result (Grows net.old net.new high) }
    ensures bits { OnOk result (register_bits net.new ≤ register_bits net.old + high) }
    ensures go_net { IfOk result (λ g. IsNet net.new g.go.0) }
    ensures fail_net { IfOk result (λ g. IsNet net.new g.fail.0) }
    ensures pend_net { IfOk result (λ g. IsNet net.new g.pend.0) }
    ensures go { IfOk result (λ g. InEachCycle net.new (λ run n.
        On (run g.go.0) n ↔ IsDueEvent (run on.0) low high (run start.0) (run clear.0) n)) }
    ensures fail { IfOk result (λ g. InEachCycle net.new (λ run n. ¬ On (run g.fail.0) n)) }
    ensures pend { IfOk result (λ g. InEachCycle net.new (λ run n.
        On (run g.pend.0) n ↔ IsAwaitedEvent (run on.0) high (run start.0) (run clear.0) n)) }
{
    each_register_has_one_bit();
    a_netlist_is_well_made(net);
    let gate = gate_of_events(net, on, low, high, start, clear)?;
    a_netlist_is_well_made(net);
    Ok(gate)
}

// The gate of an expression, told by its registers.
fn gate_of_sights(
    net: &mut Netlist,
    on: Net,
    seen: Net,
    low: u32,
    high: u32,
    start: Net,
    clear: Net,
) -> Result<Gate, AllocError>
    requires some { 1 ≤ high }
    requires on { IsNet net.old on.0 }
    requires seen { IsNet net.old seen.0 }
    requires start { IsNet net.old start.0 }
    requires clear { IsNet net.old clear.0 }
    ensures kept { Extends net.old net.new }
    ensures grows { OnOk result (Grows net.old net.new high) }
    ensures go_net { IfOk result (λ g. IsNet net.new g.go.0) }
    ensures fail_net { IfOk result (λ g. IsNet net.new g.fail.0) }
    ensures pend_net { IfOk result (λ g. IsNet net.new g.pend.0) }
    ensures go { IfOk result (λ g. InEachCycle net.new (λ run n. ¬ On (run g.go.0) n)) }
    ensures fail { IfOk result (λ g. InEachCycle net.new (λ run n.
        ComesBy (run g.fail.0) n ↔ IsMissedBy (run on.0) (run seen.0) low high (run start.0) (run clear.0) n)) }
    ensures pend { IfOk result (λ g. InEachCycle net.new (λ run n.
        On (run g.pend.0) n ↔ IsUnseen (run on.0) (run seen.0) low high (run start.0) (run clear.0) n)) }
{
    growths_join();
    extensions_join();
    let uncleared = net.not(clear)?;
    let quiet = net.not(on)?;
    let unseen = net.not(seen)?;
    let late = net.and(on, unseen)?;
    let nets = Counted {
        on,
        quiet,
        late,
        uncleared,
    };
    let go = net.bit(false)?;
    let count = count_of(net, nets, low, high, high, start)?;
    Ok(Gate {
        go,
        fail: count.due,
        pend: count.waiting,
    })
}

/// The gate that looks whether `seen` is on in one of the cycles in which `on` is on for the `low`-th to the `high`-th
/// time since a start. It fails in the last of them if it wasn't, and pends where an open start may still come to one.
/// It starts nothing.
///
/// It makes `high` registers of one bit each. Time and memory grow with `high`.
pub fn event_some(
    net: &mut Netlist,
    on: Net,
    seen: Net,
    low: u32,
    high: u32,
    start: Net,
    clear: Net,
) -> Result<Gate, AllocError>
    requires some { 1 ≤ low }
    requires ordered { low ≤ high }
    requires on { IsNet net.old on.0 }
    requires seen { IsNet net.old seen.0 }
    requires start { IsNet net.old start.0 }
    requires clear { IsNet net.old clear.0 }
    ensures kept { Extends net.old net.new }
    ensures grows { OnOk result (Grows net.old net.new high) }
    ensures bits { OnOk result (register_bits net.new ≤ register_bits net.old + high) }
    ensures go_net { IfOk result (λ g. IsNet net.new g.go.0) }
    ensures fail_net { IfOk result (λ g. IsNet net.new g.fail.0) }
    ensures pend_net { IfOk result (λ g. IsNet net.new g.pend.0) }
    ensures go { IfOk result (λ g. InEachCycle net.new (λ run n. ¬ On (run g.go.0) n)) }
    ensures fail { IfOk result (λ g. InEachCycle net.new (λ run n.
        ComesBy (run g.fail.0) n ↔ IsMissedBy (run on.0) (run seen.0) low high (run start.0) (run clear.0) n)) }
    ensures pend { IfOk result (λ g. InEachCycle net.new (λ run n.
        On (run g.pend.0) n ↔ IsUnseen (run on.0) (run seen.0) low high (run start.0) (run clear.0) n)) }
{
    each_register_has_one_bit();
    a_netlist_is_well_made(net);
    let gate = gate_of_sights(net, on, seen, low, high, start, clear)?;
    a_netlist_is_well_made(net);
    Ok(gate)
}
