//! The recursion that makes a check.

ghost use Rattle.std.specs.Prelude.{◌≡◌, IfOk, OnOk};
ghost use Rattle.psl_rewrite.specs.View.{base_of};
ghost use Rattle.circuit_core.specs.Netlist.{IsNet};
ghost use Rattle.circuit_core.specs.Growth.{Extends};
ghost use Rattle.sequence_matches.specs.Growth.{GrowsWithin};
ghost use Rattle.sequence_cores.specs.Places.{told};
ghost use Rattle.formula_limits.specs.Places.{AreSmall};
ghost use Rattle.formula_limits.specs.Registers.{registers_of};
ghost use Rattle.property_circuits.specs.Conditions.{IsBuilt, HasGuards};
ghost use Rattle.property_circuits.specs.Starts.{IsCheckIn};
ghost use Rattle.property_circuits.specs.Told.{IsTold};

use crate::gates::{join_waiting, later_starts, starts_until};
use crate::parts::{check_bool, join, open_starts, starts_after, starts_with, starts_without};
use circuit_core::laws::extensions_join;
use circuit_core::{Check, Net, Netlist};
use formula_limits::told_sum;
use psl_rewrite::Base;
use sequence_matches::laws::growths_within_join;
use std::alloc::{AllocError, Global};

/// Stands for all counts from here on.
const COUNT_LIMIT: u64 = 0x8000_0000_0000_0000;

/// A check of a formula, and how many steps the tables of its sequences have, as they are told.
#[derive(Clone, Copy, Debug)]
pub struct CountedCheck {
    pub check: Check,
    pub steps: u64,
}

// A count, as it is told.
fn told_count(count: u64) -> u64
    ensures { result ≡ told count }
{
    count.min(COUNT_LIMIT)
}

/// The check of a base formula that two nets start and clear, with its steps.
pub fn check_variant(
    alloc: Global,
    net: &mut Netlist,
    base: &Base,
    start: Net,
    clear: Net,
) -> Result<CountedCheck, AllocError>
    requires built { IsBuilt (base_of base.now) }
    requires small { AreSmall (base_of base.now) }
    requires guards { HasGuards net.old.widths (base_of base.now) }
    requires start { IsNet net.old start.0 }
    requires clear { IsNet net.old clear.0 }
    ensures kept { Extends net.old net.new }
    ensures grows { OnOk result (GrowsWithin net.old net.new (registers_of (base_of base.now))) }
    ensures fail_net { IfOk result (λ x. IsNet net.new x.check.fail.0) }
    ensures pend_net { IfOk result (λ x. IsNet net.new x.check.pend.0) }
    ensures check { IfOk result (λ x.
        IsCheckIn net.new net.old.widths (base_of base.now) start.0 clear.0 x.check.fail.0 x.check.pend.0) }
    ensures steps { IfOk result (λ x. IsTold (base_of base.now) x.steps) }
{
    growths_within_join();
    extensions_join();
    match base {
        Base::Bool(expr) => {
            let check = check_bool(net, expr, start, clear)?;
            Ok(CountedCheck { check, steps: 0 })
        }
        Base::And(left, right) => {
            let one = check_variant(alloc, net, left.get(), start, clear)?;
            let two = check_variant(alloc, net, right.get(), start, clear)?;
            let check = join(net, one.check, two.check)?;
            let steps = told_sum(one.steps, two.steps);
            Ok(CountedCheck { check, steps })
        }
        Base::OrBool(expr, body) => {
            let begun = starts_without(net, expr, start)?;
            let each = check_variant(alloc, net, body.get(), begun, clear)?;
            Ok(each)
        }
        Base::Implies(expr, body) => {
            let begun = starts_with(net, expr, start)?;
            let each = check_variant(alloc, net, body.get(), begun, clear)?;
            Ok(each)
        }
        Base::Always(body) => {
            let begun = open_starts(net, start, clear)?;
            let each = check_variant(alloc, net, body.get(), begun, clear)?;
            Ok(each)
        }
        Base::Suffix(sere, body) => {
            let found = starts_after(alloc, net, sere, start, clear)?;
            let each = check_variant(alloc, net, body.get(), found.net, clear)?;
            let check = each.check;
            let steps = told_sum(told_count(found.steps), each.steps);
            Ok(CountedCheck { check, steps })
        }
        Base::Next {
            strong,
            count,
            body,
        } => {
            let gate = later_starts(net, *count, *count, start, clear)?;
            let each = check_variant(alloc, net, body.get(), gate.go, clear)?;
            let check = join_waiting(net, each.check, *strong, gate.pend)?;
            let steps = each.steps;
            Ok(CountedCheck { check, steps })
        }
        Base::NextAll {
            strong,
            low,
            high,
            body,
        } => {
            let gate = later_starts(net, *low, *high, start, clear)?;
            let each = check_variant(alloc, net, body.get(), gate.go, clear)?;
            let check = join_waiting(net, each.check, *strong, gate.pend)?;
            let steps = each.steps;
            Ok(CountedCheck { check, steps })
        }
        Base::Until { strong, body, stop } => {
            let gate = starts_until(net, stop, start, clear)?;
            let each = check_variant(alloc, net, body.get(), gate.go, clear)?;
            let check = join_waiting(net, each.check, *strong, gate.pend)?;
            let steps = each.steps;
            Ok(CountedCheck { check, steps })
        }
        _ => unreachable!(),
    }
}
