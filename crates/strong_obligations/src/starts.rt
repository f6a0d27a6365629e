//! Starts that stay open until they are cleared, or until something stops them.

ghost use Rattle.std.specs.Prelude.{◌≡◌, ◌↔◌, ◌⊎◌, ◌≤◌, ◌+◌, IfOk, OnOk};
ghost use Rattle.circuit_core.specs.Netlist.{IsNet};
ghost use Rattle.circuit_core.specs.Run.{On, InEachCycle};
ghost use Rattle.circuit_core.specs.Growth.{Extends, Grows};
ghost use Rattle.circuit_core.specs.Starts.{Open, SomeStart};
ghost use Rattle.strong_obligations.specs.Bits.{register_bits};
ghost use Rattle.strong_obligations.specs.Until.{IsUnstopped};

use crate::laws::each_register_has_one_bit;
use circuit_core::laws::{a_netlist_is_well_made, extensions_join};
use circuit_core::{Gate, Net, Netlist};
use std::alloc::AllocError;

/// On in each cycle in which some start is open, its own included. One register holds the starts of earlier cycles.
pub fn open_starts(net: &mut Netlist, start: Net, clear: Net) -> Result<Net, AllocError>
    requires start { IsNet net.old start.0 }
    requires clear { IsNet net.old clear.0 }
    ensures kept { Extends net.old net.new }
    ensures grows { OnOk result (Grows net.old net.new 1) }
    ensures net { IfOk result (λ k. IsNet net.new k.0) }
    ensures stream { IfOk result (λ k. InEachCycle net.new (λ run n.
        On (run k.0) n ↔ SomeStart (run start.0) n (λ i. Open (run clear.0) i n))) }
{
    extensions_join();
    let (register, held) = net.reg(1, 0)?;
    let begun = net.or(start, held)?;
    let kept = net.not(clear)?;
    let live = net.and(begun, kept)?;
    net.set_next(register, live);
    Ok(live)
}

// On in each cycle up to which an open start has seen no `stop`.
fn unstopped(net: &mut Netlist, stop: Net, start: Net, clear: Net) -> Result<Net, AllocError>
    requires stop { IsNet net.old stop.0 }
    requires start { IsNet net.old start.0 }
    requires clear { IsNet net.old clear.0 }
    ensures kept { Extends net.old net.new }
    ensures grows { OnOk result (Grows net.old net.new 1) }
    ensures net { IfOk result (λ k. IsNet net.new k.0) }
    ensures stream { IfOk result (λ k. InEachCycle net.new (λ run n.
        On (run k.0) n ↔ IsUnstopped (run stop.0) (run start.0) (run clear.0) n)) }
{
    let dropped = net.or(clear, stop)?;
    let live = open_starts(net, start, dropped)?;
    Ok(live)
}

// The gate, told by its registers.
fn gate_until(net: &mut Netlist, stop: Net, start: Net, clear: Net) -> Result<Gate, AllocError>
    requires stop { IsNet net.old stop.0 }
    requires start { IsNet net.old start.0 }
    requires clear { IsNet net.old clear.0 }
    ensures kept { Extends net.old net.new }
    ensures grows { OnOk result (Grows net.old net.new 1) }
    ensures go_net { IfOk result (λ g. IsNet net.new g.go.0) }
    ensures fail_net { IfOk result (λ g. IsNet net.new g.fail.0) }
    ensures pend_net { IfOk result (λ g. IsNet net.new g.pend.0) }
    ensures go { IfOk result (λ g. InEachCycle net.new (λ run n.
        On (run g.go.0) n ↔ IsUnstopped (run stop.0) (run start.0) (run clear.0) n)) }
    ensures fail { IfOk result (λ g. InEachCycle net.new (λ run n. ¬ On (run g.fail.0) n)) }
    ensures pend { IfOk result (λ g. InEachCycle net.new (λ run n.
        On (run g.pend.0) n ↔ IsUnstopped (run stop.0) (run start.0) (run clear.0) n)) }
{
    let live = unstopped(net, stop, start, clear)?;
    let fail = net.bit(false)?;
    Ok(Gate {
        go: live,
        fail,
        pend: live,
    })
}

/// The gate of a body that is started in each cycle up to which an open start has seen no `stop`, this cycle included.
/// It pends there too, and never fails. It makes one register of one bit.
pub fn until_gate(net: &mut Netlist, stop: Net, start: Net, clear: Net) -> Result<Gate, AllocError>
    requires stop { IsNet net.old stop.0 }
    requires start { IsNet net.old start.0 }
    requires clear { IsNet net.old clear.0 }
    ensures kept { Extends net.old net.new }
    ensures grows { OnOk result (Grows net.old net.new 1) }
    ensures bits { OnOk result (register_bits net.new ≤ register_bits net.old + 1) }
    ensures go_net { IfOk result (λ g. IsNet net.new g.go.0) }
    ensures fail_net { IfOk result (λ g. IsNet net.new g.fail.0) }
    ensures pend_net { IfOk result (λ g. IsNet net.new g.pend.0) }
    ensures go { IfOk result (λ g. InEachCycle net.new (λ run n.
        On (run g.go.0) n ↔ IsUnstopped (run stop.0) (run start.0) (run clear.0) n)) }
    ensures fail { IfOk result (λ g. InEachCycle net.new (λ run n. ¬ On (run g.fail.0) n)) }
    ensures pend { IfOk result (λ g. InEachCycle net.new (λ run n.
        On (run g.pend.0) n ↔ IsUnstopped (run stop.0) (run start.0) (run clear.0) n)) }
{
    each_register_has_one_bit();
    a_netlist_is_well_made(net);
    let gate = gate_until(net, stop, start, clear)?;
    a_netlist_is_well_made(net);
    Ok(gate)
}
