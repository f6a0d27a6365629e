//! Bodies that are started later than the whole is: the gate before the check of the body, and what joins both.

ghost use Rattle.std.specs.Prelude.{◌≡◌, ◌≤◌, ◌+◌, ℕ, List, Bool, IfOk, OnOk, length};
ghost use Rattle.psl_model.specs.View.{expr_of};
ghost use Rattle.psl_rewrite.specs.Base as base;
ghost use Rattle.psl_rewrite.specs.Base.{Base};
ghost use Rattle.circuit_core.specs.Netlist.{IsNet};
ghost use Rattle.circuit_core.specs.Run.{InEachRun};
ghost use Rattle.circuit_core.specs.Growth.{Extends};
ghost use Rattle.sequence_matches.specs.Growth.{GrowsWithin};
ghost use Rattle.circuit_core.specs.WellMade.{IsGuard};
ghost use Rattle.property_circuits.specs.Conditions.{IsBuilt};
ghost use Rattle.property_circuits.specs.Starts.{IsGateOf, WaitsIfStrong};

use circuit_core::laws::{extensions_join, growths_join};
use circuit_core::{Check, Gate, Net, Netlist};
use psl_model::Expr;
use psl_rewrite::violations::tops_for_ever_satisfy;
use sequence_matches::laws::growths_within_join;
use std::alloc::AllocError;
use strong_obligations::{next_chain, until_gate};
use violation_laws::{
    next_is_its_body_later, next_is_its_body_later_so_far, until_is_its_body_before_the_stop,
    until_is_its_body_before_the_stop_so_far,
};

// The gate of a body that is checked in each cycle from `low` to `high` cycles later.
pub fn later_starts(
    net: &mut Netlist,
    low: u32,
    high: u32,
    start: Net,
    clear: Net,
) -> Result<Gate, AllocError>
    requires ordered { low ≤ high }
    requires start { IsNet net.old start.0 }
    requires clear { IsNet net.old clear.0 }
    ensures kept { Extends net.old net.new }
    ensures grows { OnOk result (GrowsWithin net.old net.new high) }
    ensures go_net { IfOk result (λ g. IsNet net.new g.go.0) }
    ensures pend_net { IfOk result (λ g. IsNet net.new g.pend.0) }
    ensures one { IfOk result (λ g. InEachRun net.new (λ inputs run.
        (widths : List ℕ) (strong : Bool) (f : Base) → low ≡ high → IsBuilt f →
        IsGateOf widths inputs.trace strong (base.next strong low f) f
        (run start.0) (run clear.0) (run g.go.0) (run g.pend.0))) }
    ensures all { IfOk result (λ g. InEachRun net.new (λ inputs run.
        (widths : List ℕ) (strong : Bool) (f : Base) → IsBuilt f →
        IsGateOf widths inputs.trace strong (base.next_all strong low high f) f
        (run start.0) (run clear.0) (run g.go.0) (run g.pend.0))) }
{
    tops_for_ever_satisfy();
    next_is_its_body_later_so_far();
    next_is_its_body_later();
    growths_within_join();
    let gate = next_chain(net, low, high, start, clear)?;
    Ok(gate)
}

// The gate of a body that is checked in each cycle before the expression holds.
pub fn starts_until(
    net: &mut Netlist,
    stop: &Expr,
    start: Net,
    clear: Net,
) -> Result<Gate, AllocError>
    requires guard { IsGuard net.old.widths (expr_of stop.now) }
    requires start { IsNet net.old start.0 }
    requires clear { IsNet net.old clear.0 }
    ensures kept { Extends net.old net.new }
    ensures grows { OnOk result (GrowsWithin net.old net.new 1) }
    ensures go_net { IfOk result (λ g. IsNet net.new g.go.0) }
    ensures pend_net { IfOk result (λ g. IsNet net.new g.pend.0) }
    ensures gate { IfOk result (λ g. InEachRun net.new (λ inputs run. (strong : Bool) (f : Base) →
        IsGateOf net.old.widths inputs.trace strong (base.until strong f (expr_of stop.now)) f
        (run start.0) (run clear.0) (run g.go.0) (run g.pend.0))) }
{
    until_is_its_body_before_the_stop_so_far();
    until_is_its_body_before_the_stop();
    extensions_join();
    growths_within_join();
    let stopped = net.guard(stop)?;
    let gate = until_gate(net, stopped, start, clear)?;
    Ok(gate)
}

// The check of a body behind a gate: in a strong form it pends where the gate waits too.
pub fn join_waiting(
    net: &mut Netlist,
    check: Check,
    strong: bool,
    waits: Net,
) -> Result<Check, AllocError>
    requires fail { IsNet net.old check.fail.0 }
    requires pend { IsNet net.old check.pend.0 }
    requires waits { IsNet net.old waits.0 }
    ensures kept { Extends net.old net.new }
    ensures grows { OnOk result (GrowsWithin net.old net.new 0) }
    ensures fail_net { IfOk result (λ c. IsNet net.new c.fail.0) }
    ensures pend_net { IfOk result (λ c. IsNet net.new c.pend.0) }
    ensures fails { IfOk result (λ c. c.fail.0 ≡ check.fail.0) }
    ensures pends { IfOk result (λ c. InEachRun net.new (λ inputs run.
        WaitsIfStrong (length inputs.trace) strong (run check.pend.0) (run waits.0) (run c.pend.0))) }
{
    extensions_join();
    growths_join();
    growths_within_join();
    if strong {
        let pend = net.or(check.pend, waits)?;
        Ok(Check {
            fail: check.fail,
            pend,
        })
    } else {
        Ok(check)
    }
}
