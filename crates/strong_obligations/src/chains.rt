//! Bodies that are started some cycles after a start.

ghost use Rattle.std.specs.Prelude.{◌≡◌, ◌↔◌, ◌⊎◌, ◌<◌, ◌≤◌, ◌+◌, ℕ, suc, IfOk, OnOk, IsTrue, length};
ghost use Rattle.circuit_core.specs.Netlist.{IsNet};
ghost use Rattle.circuit_core.specs.Run.{Stream, On, InEachRun, InEachCycle};
ghost use Rattle.circuit_core.specs.Growth.{Extends, Grows};
ghost use Rattle.strong_obligations.specs.Bits.{register_bits};
ghost use Rattle.strong_obligations.specs.Next.{IsDue, IsAwaited};
ghost use Rattle.strong_obligations.specs.inner.Delays.{IsDelayed, IsOpposite};

use crate::laws::each_register_has_one_bit;
use circuit_core::laws::{a_netlist_is_well_made, extensions_join, growths_join};
use circuit_core::{Gate, Net, Netlist};
use std::alloc::AllocError;

// Off in the first cycle, and then what `from` was in the cycle before.
fn delayed(net: &mut Netlist, from: Net) -> Result<Net, AllocError>
    requires from { IsNet net.old from.0 }
    ensures kept { Extends net.old net.new }
    ensures grows { OnOk result (Grows net.old net.new 1) }
    ensures net { IfOk result (λ k. IsNet net.new k.0) }
    ensures stream { IfOk result (λ k. InEachRun net.new (λ inputs run.
        IsDelayed (length inputs.trace) (run from.0) (run k.0))) }
{
    let (register, held) = net.reg(1, 0)?;
    net.set_next(register, from);
    Ok(held)
}

// On where one of two nets is, of which the second counts only if it is wanted.
pub(crate) fn or_if(
    net: &mut Netlist,
    others: Net,
    wanted: bool,
    more: Net,
) -> Result<Net, AllocError>
    requires others { IsNet net.old others.0 }
    requires more { IsNet net.old more.0 }
    ensures kept { Extends net.old net.new }
    ensures grows { OnOk result (Grows net.old net.new 0) }
    ensures net { IfOk result (λ k. IsNet net.new k.0) }
    ensures stream { IfOk result (λ k. InEachCycle net.new (λ run n.
        On (run k.0) n ↔ (On (run others.0) n ⊎ (IsTrue wanted × On (run more.0) n)))) }
{
    growths_join();
    extensions_join();
    if wanted {
        let joined = net.or(others, more)?;
        Ok(joined)
    } else {
        Ok(others)
    }
}

// The starts of so many cycles ago that are open, those for which a body is due, and those that wait.
#[derive(Clone, Copy, Debug)]
struct Chain {
    live: Net,
    due: Net,
    waiting: Net,
}

// The open starts of one cycle more ago.
fn later(net: &mut Netlist, live: Net, uncleared: Net) -> Result<Net, AllocError>
    requires live { IsNet net.old live.0 }
    requires uncleared { IsNet net.old uncleared.0 }
    ensures kept { Extends net.old net.new }
    ensures grows { OnOk result (Grows net.old net.new 1) }
    ensures net { IfOk result (λ k. IsNet net.new k.0) }
    ensures first { IfOk result (λ k. InEachRun net.new (λ inputs run.
        0 < length inputs.trace → ¬ On (run k.0) 0)) }
    ensures later { IfOk result (λ k. InEachRun net.new (λ inputs run.
        (n : ℕ) → suc n < length inputs.trace →
        On (run k.0) (suc n) ↔ (On (run live.0) n × On (run uncleared.0) (suc n)))) }
{
    let held = delayed(net, live)?;
    let open = net.and(held, uncleared)?;
    Ok(open)
}

// One cycle more. The new open starts are due if that is wanted.
fn lengthen(
    net: &mut Netlist,
    chain: Chain,
    uncleared: Net,
    is_due: bool,
) -> Result<Chain, AllocError>
    requires live { IsNet net.old chain.live.0 }
    requires due { IsNet net.old chain.due.0 }
    requires waiting { IsNet net.old chain.waiting.0 }
    requires uncleared { IsNet net.old uncleared.0 }
    ensures kept { Extends net.old net.new }
    ensures grows { OnOk result (Grows net.old net.new 1) }
    ensures live_net { IfOk result (λ c. IsNet net.new c.live.0) }
    ensures due_net { IfOk result (λ c. IsNet net.new c.due.0) }
    ensures waiting_net { IfOk result (λ c. IsNet net.new c.waiting.0) }
    ensures live_first { IfOk result (λ c. InEachRun net.new (λ inputs run.
        0 < length inputs.trace → ¬ On (run c.live.0) 0)) }
    ensures live_later { IfOk result (λ c. InEachRun net.new (λ inputs run.
        (n : ℕ) → suc n < length inputs.trace →
        On (run c.live.0) (suc n) ↔ (On (run chain.live.0) n × On (run uncleared.0) (suc n)))) }
    ensures due { IfOk result (λ c. InEachCycle net.new (λ run n.
        On (run c.due.0) n ↔ (On (run chain.due.0) n ⊎ (IsTrue is_due × On (run c.live.0) n)))) }
    ensures waiting { IfOk result (λ c. InEachCycle net.new (λ run n.
        On (run c.waiting.0) n ↔ (On (run chain.waiting.0) n ⊎ On (run chain.live.0) n))) }
{
    growths_join();
    extensions_join();
    let waiting = net.or(chain.waiting, chain.live)?;
    let live = later(net, chain.live, uncleared)?;
    let due = or_if(net, chain.due, is_due, live)?;
    Ok(Chain { live, due, waiting })
}

// The chain of no cycle.
fn begun(net: &mut Netlist, low: u32, start: Net, uncleared: Net) -> Result<Chain, AllocError>
    requires start { IsNet net.old start.0 }
    requires uncleared { IsNet net.old uncleared.0 }
    ensures kept { Extends net.old net.new }
    ensures grows { OnOk result (Grows net.old net.new 0) }
    ensures live_net { IfOk result (λ c. IsNet net.new c.live.0) }
    ensures due_net { IfOk result (λ c. IsNet net.new c.due.0) }
    ensures waiting_net { IfOk result (λ c. IsNet net.new c.waiting.0) }
    ensures live { IfOk result (λ c. InEachCycle net.new (λ run n.
        On (run c.live.0) n ↔ (On (run start.0) n × On (run uncleared.0) n))) }
    ensures due { IfOk result (λ c. InEachCycle net.new (λ run n.
        On (run c.due.0) n ↔ ((low ≡ 0) × On (run c.live.0) n))) }
    ensures waiting { IfOk result (λ c. InEachCycle net.new (λ run n. ¬ On (run c.waiting.0) n)) }
{
    growths_join();
    extensions_join();
    let live = net.and(start, uncleared)?;
    let waiting = net.bit(false)?;
    let due = or_if(net, waiting, low == 0, live)?;
    Ok(Chain { live, due, waiting })
}

// The chain of `high` cycles.
fn chain_of(
    net: &mut Netlist,
    low: u32,
    high: u32,
    start: Net,
    uncleared: Net,
) -> Result<Chain, AllocError>
    requires start { IsNet net.old start.0 }
    requires uncleared { IsNet net.old uncleared.0 }
    ensures kept { Extends net.old net.new }
    ensures grows { OnOk result (Grows net.old net.new high) }
    ensures due_net { IfOk result (λ c. IsNet net.new c.due.0) }
    ensures waiting_net { IfOk result (λ c. IsNet net.new c.waiting.0) }
    ensures due { IfOk result (λ c. InEachRun net.new (λ inputs run. (clear : Stream) →
        IsOpposite (length inputs.trace) clear (run uncleared.0) →
        (n : ℕ) → n < length inputs.trace → On (run c.due.0) n ↔ IsDue low high (run start.0) clear n)) }
    ensures waiting { IfOk result (λ c. InEachRun net.new (λ inputs run. (clear : Stream) →
        IsOpposite (length inputs.trace) clear (run uncleared.0) →
        (n : ℕ) → n < length inputs.trace → On (run c.waiting.0) n ↔ IsAwaited high (run start.0) clear n)) }
{
    growths_join();
    extensions_join();
    let first = begun(net, low, start, uncleared)?;
    let mut chain = first;
    for stage in 0..high {
        chain = lengthen(net, chain, uncleared, low <= stage + 1)?;
    }
    Ok(chain)
}

// The gate, told by its registers.
fn gate_of(
    net: &mut Netlist,
    low: u32,
    high: u32,
    start: Net,
    clear: Net,
) -> Result<Gate, AllocError>
    requires start { IsNet net.old start.0 }
    requires clear { IsNet net.old clear.0 }
    ensures kept { Extends net.old net.new }
    ensures grows { OnOk result (Grows net.old net.new high) }
    ensures go_net { IfOk result (λ g. IsNet net.new g.go.0) }
    ensures fail_net { IfOk result (λ g. IsNet net.new g.fail.0) }
    ensures pend_net { IfOk result (λ g. IsNet net.new g.pend.0) }
    ensures go { IfOk result (λ g. InEachCycle net.new (λ run n.
        On (run g.go.0) n ↔ IsDue low high (run start.0) (run clear.0) n)) }
    ensures fail { IfOk result (λ g. InEachCycle net.new (λ run n. ¬ On (run g.fail.0) n)) }
    ensures pend { IfOk result (λ g. InEachCycle net.new (λ run n.
        On (run g.pend.0) n ↔ IsAwaited high (run start.0) (run clear.0) n)) }
{
    growths_join();
    extensions_join();
    let uncleared = net.not(clear)?;
    let chain = chain_of(net, low, high, start, uncleared)?;
    let fail = net.bit(false)?;
    Ok(Gate {
        go: chain.due,
        fail,
        pend: chain.waiting,
    })
}

/// The gate of a body that is started in each cycle that is from `low` to `high` cycles after an open start. It pends
/// where an open start still waits for a cycle in which its body is started, and never fails.
///
/// It makes `high` registers of one bit each. Time and memory grow with `high`.
pub fn next_chain(
    net: &mut Netlist,
    low: u32,
    high: u32,
    start: Net,
    clear: Net,
) -> Result<Gate, AllocError>
    requires ordered { low ≤ high }
    requires start { IsNet net.old start.0 }
    requires clear { IsNet net.old clear.0 }
    ensures kept { Extends net.old net.new }
    ensures grows { OnOk result (Grows net.old net.new high) }
    ensures bits { OnOk result (register_bits net.new ≤ register_bits net.old + high) }
    ensures go_net { IfOk result (λ g. IsNet net.new g.go.0) }
    ensures fail_net { IfOk result (λ g. IsNet net.new g.fail.0) }
    ensures pend_net { IfOk result (λ g. IsNet net.new g.pend.0) }
    ensures go { IfOk result (λ g. InEachCycle net.new (λ run n.
        On (run g.go.0) n ↔ IsDue low high (run start.0) (run clear.0) n)) }
    ensures fail { IfOk result (λ g. InEachCycle net.new (λ run n. ¬ On (run g.fail.0) n)) }
    ensures pend { IfOk result (λ g. InEachCycle net.new (λ run n.
        On (run g.pend.0) n ↔ IsAwaited high (run start.0) (run clear.0) n)) }
{
    each_register_has_one_bit();
    a_netlist_is_well_made(net);
    let gate = gate_of(net, low, high, start, clear)?;
    a_netlist_is_well_made(net);
    Ok(gate)
}
