//! Counts of events since open starts, a register of one bit a count.

ghost use Rattle.std.specs.Prelude.{◌≡◌, ◌↔◌, ◌⊎◌, ◌<◌, ◌≤◌, ◌+◌, ℕ, IfOk, OnOk, IsTrue, length};
ghost use Rattle.circuit_core.specs.Netlist.{IsNet};
ghost use Rattle.circuit_core.specs.Run.{Stream, On, InEachRun, InEachCycle};
ghost use Rattle.circuit_core.specs.Growth.{Extends, Grows};
ghost use Rattle.strong_obligations.specs.inner.Counts.{IsStage, passing, AreCounted, IsCounted, IsCountedBelow};

use crate::chains::or_if;
use circuit_core::laws::{extensions_join, growths_join};
use circuit_core::{Net, Netlist};
use std::alloc::AllocError;

// The open starts that had so many events in earlier cycles, and those that have so many with this one.
#[derive(Clone, Copy, Debug)]
struct Stage {
    live: Net,
    stays: Net,
}

// No event yet.
fn first_stage(
    net: &mut Netlist,
    start: Net,
    uncleared: Net,
    quiet: Net,
) -> Result<Stage, AllocError>
    requires start { IsNet net.old start.0 }
    requires uncleared { IsNet net.old uncleared.0 }
    requires quiet { IsNet net.old quiet.0 }
    ensures kept { Extends net.old net.new }
    ensures grows { OnOk result (Grows net.old net.new 1) }
    ensures live_net { IfOk result (λ s. IsNet net.new s.live.0) }
    ensures stays_net { IfOk result (λ s. IsNet net.new s.stays.0) }
    ensures stage { IfOk result (λ s. InEachRun net.new (λ inputs run.
        IsStage (length inputs.trace) (On (run start.0)) (λ n. ⊥) (run uncleared.0) (run quiet.0) (run s.live.0) (run s.stays.0))) }
{
    extensions_join();
    let (register, held) = net.reg(1, 0)?;
    let begun = net.or(held, start)?;
    let live = net.and(begun, uncleared)?;
    let stays = net.and(live, quiet)?;
    net.set_next(register, stays);
    Ok(Stage { live, stays })
}

// One event more, which comes from the stage before.
fn later_stage(
    net: &mut Netlist,
    comes: Net,
    uncleared: Net,
    quiet: Net,
) -> Result<Stage, AllocError>
    requires comes { IsNet net.old comes.0 }
    requires uncleared { IsNet net.old uncleared.0 }
    requires quiet { IsNet net.old quiet.0 }
    ensures kept { Extends net.old net.new }
    ensures grows { OnOk result (Grows net.old net.new 1) }
    ensures live_net { IfOk result (λ s. IsNet net.new s.live.0) }
    ensures stays_net { IfOk result (λ s. IsNet net.new s.stays.0) }
    ensures stage { IfOk result (λ s. InEachRun net.new (λ inputs run.
        IsStage (length inputs.trace) (λ n. ⊥) (On (run comes.0)) (run uncleared.0) (run quiet.0) (run s.live.0) (run s.stays.0))) }
{
    extensions_join();
    let (register, held) = net.reg(1, 0)?;
    let live = net.and(held, uncleared)?;
    let stay = net.and(live, quiet)?;
    let stays = net.or(stay, comes)?;
    net.set_next(register, stays);
    Ok(Stage { live, stays })
}

// The nets that are counted over: `on` and its opposite, `late` by which events pass from the `low`-th on, and the opposite
// of the clears.
#[derive(Clone, Copy, Debug)]
pub(crate) struct Counted {
    pub(crate) on: Net,
    pub(crate) quiet: Net,
    pub(crate) late: Net,
    pub(crate) uncleared: Net,
}

// The starts that had one event less than they come to now, those that have as many now as then, those that come to them in
// this cycle, those that came to enough, and those that wait for more.
#[derive(Clone, Copy, Debug)]
pub(crate) struct Count {
    pub(crate) live: Net,
    pub(crate) stays: Net,
    pub(crate) comes: Net,
    pub(crate) due: Net,
    pub(crate) waiting: Net,
}

fn pass(nets: Counted, is_late: bool) -> Net
    ensures { result.0 ≡ passing is_late nets.late.0 nets.on.0 }
{
    if is_late { nets.late } else { nets.on }
}

// The first event.
fn first_count(
    net: &mut Netlist,
    nets: Counted,
    is_late: bool,
    is_due: bool,
    start: Net,
) -> Result<Count, AllocError>
    requires on { IsNet net.old nets.on.0 }
    requires quiet { IsNet net.old nets.quiet.0 }
    requires late { IsNet net.old nets.late.0 }
    requires uncleared { IsNet net.old nets.uncleared.0 }
    requires start { IsNet net.old start.0 }
    ensures kept { Extends net.old net.new }
    ensures grows { OnOk result (Grows net.old net.new 1) }
    ensures comes_net { IfOk result (λ c. IsNet net.new c.comes.0) }
    ensures due_net { IfOk result (λ c. IsNet net.new c.due.0) }
    ensures waiting_net { IfOk result (λ c. IsNet net.new c.waiting.0) }
    ensures stage { IfOk result (λ c. InEachRun net.new (λ inputs run.
        IsStage (length inputs.trace) (On (run start.0)) (λ n. ⊥)
        (run nets.uncleared.0) (run nets.quiet.0) (run c.live.0) (run c.stays.0))) }
    ensures comes { IfOk result (λ c. InEachCycle net.new (λ run n.
        On (run c.comes.0) n ↔ (On (run c.live.0) n × On (run (passing is_late nets.late.0 nets.on.0)) n))) }
    ensures due { IfOk result (λ c. InEachCycle net.new (λ run n.
        On (run c.due.0) n ↔ (IsTrue is_due × On (run c.comes.0) n))) }
    ensures waiting { IfOk result (λ c. InEachCycle net.new (λ run n.
        On (run c.waiting.0) n ↔ On (run c.stays.0) n)) }
{
    growths_join();
    extensions_join();
    let stage = first_stage(net, start, nets.uncleared, nets.quiet)?;
    let comes = net.and(stage.live, pass(nets, is_late))?;
    let none = net.bit(false)?;
    let due = or_if(net, none, is_due, comes)?;
    Ok(Count {
        live: stage.live,
        stays: stage.stays,
        comes,
        due,
        waiting: stage.stays,
    })
}

// One event more.
fn next_count(
    net: &mut Netlist,
    nets: Counted,
    count: Count,
    is_late: bool,
    is_due: bool,
) -> Result<Count, AllocError>
    requires on { IsNet net.old nets.on.0 }
    requires quiet { IsNet net.old nets.quiet.0 }
    requires late { IsNet net.old nets.late.0 }
    requires uncleared { IsNet net.old nets.uncleared.0 }
    requires comes { IsNet net.old count.comes.0 }
    requires due { IsNet net.old count.due.0 }
    requires waiting { IsNet net.old count.waiting.0 }
    ensures kept { Extends net.old net.new }
    ensures grows { OnOk result (Grows net.old net.new 1) }
    ensures comes_net { IfOk result (λ c. IsNet net.new c.comes.0) }
    ensures due_net { IfOk result (λ c. IsNet net.new c.due.0) }
    ensures waiting_net { IfOk result (λ c. IsNet net.new c.waiting.0) }
    ensures stage { IfOk result (λ c. InEachRun net.new (λ inputs run.
        IsStage (length inputs.trace) (λ n. ⊥) (On (run count.comes.0))
        (run nets.uncleared.0) (run nets.quiet.0) (run c.live.0) (run c.stays.0))) }
    ensures comes { IfOk result (λ c. InEachCycle net.new (λ run n.
        On (run c.comes.0) n ↔ (On (run c.live.0) n × On (run (passing is_late nets.late.0 nets.on.0)) n))) }
    ensures due { IfOk result (λ c. InEachCycle net.new (λ run n.
        On (run c.due.0) n ↔ (On (run count.due.0) n ⊎ (IsTrue is_due × On (run c.comes.0) n)))) }
    ensures waiting { IfOk result (λ c. InEachCycle net.new (λ run n.
        On (run c.waiting.0) n ↔ (On (run count.waiting.0) n ⊎ On (run c.stays.0) n))) }
{
    growths_join();
    extensions_join();
    let stage = later_stage(net, count.comes, nets.uncleared, nets.quiet)?;
    let comes = net.and(stage.live, pass(nets, is_late))?;
    let waiting = net.or(count.waiting, stage.stays)?;
    let due = or_if(net, count.due, is_due, comes)?;
    Ok(Count {
        live: stage.live,
        stays: stage.stays,
        comes,
        due,
        waiting,
    })
}

// Counts up to `high`, at least 1. Starts are due from the `first`-th event on.
pub(crate) fn count_of(
    net: &mut Netlist,
    nets: Counted,
    low: u32,
    first: u32,
    high: u32,
    start: Net,
) -> Result<Count, AllocError>
    requires some { 1 ≤ high }
    requires on { IsNet net.old nets.on.0 }
    requires quiet { IsNet net.old nets.quiet.0 }
    requires late { IsNet net.old nets.late.0 }
    requires uncleared { IsNet net.old nets.uncleared.0 }
    requires start { IsNet net.old start.0 }
    ensures kept { Extends net.old net.new }
    ensures grows { OnOk result (Grows net.old net.new high) }
    ensures due_net { IfOk result (λ c. IsNet net.new c.due.0) }
    ensures waiting_net { IfOk result (λ c. IsNet net.new c.waiting.0) }
    ensures due { IfOk result (λ c. InEachRun net.new (λ inputs run. (clear : Stream) →
        AreCounted (length inputs.trace) (run nets.on.0) (run nets.quiet.0) (run nets.late.0) clear (run nets.uncleared.0) →
        (n : ℕ) → n < length inputs.trace →
        On (run c.due.0) n ↔ IsCounted (run nets.on.0) low (On (run nets.late.0)) first high (run start.0) clear n)) }
    ensures waiting { IfOk result (λ c. InEachRun net.new (λ inputs run. (clear : Stream) →
        AreCounted (length inputs.trace) (run nets.on.0) (run nets.quiet.0) (run nets.late.0) clear (run nets.uncleared.0) →
        (n : ℕ) → n < length inputs.trace →
        On (run c.waiting.0) n
        ↔ IsCountedBelow (run nets.on.0) low (On (run nets.late.0)) high (run start.0) clear n)) }
{
    growths_join();
    extensions_join();
    let mut count = first_count(net, nets, low <= 1, first <= 1, start)?;
    for events in 1..high {
        count = next_count(net, nets, count, low <= events + 1, first <= events + 1)?;
    }
    Ok(count)
}
