//! The parts of a check: what each variant of a base formula puts round the check of its body.

ghost use Rattle.std.specs.Prelude.{◌≡◌, ◌≢◌, ◌≤◌, ◌+◌, ℕ, List, IfOk, OnOk};
ghost use Rattle.psl_model.specs.View.{expr_of, sere_of};
ghost use Rattle.psl_rewrite.specs.Base as base;
ghost use Rattle.psl_rewrite.specs.Base.{Base};
ghost use Rattle.circuit_core.specs.Netlist.{IsNet};
ghost use Rattle.circuit_core.specs.Run.{Stream, InEachRun};
ghost use Rattle.circuit_core.specs.Growth.{Extends};
ghost use Rattle.sequence_matches.specs.Growth.{GrowsWithin};
ghost use Rattle.psl_rewrite.specs.Conditions.{SereHas};
ghost use Rattle.circuit_core.specs.WellMade.{IsGuard};
ghost use Rattle.sequence_cores.specs.Places.{places_of, place_limit};
ghost use Rattle.formula_limits.specs.Steps.{SequenceHasSteps};
ghost use Rattle.property_circuits.specs.Conditions.{IsBuilt};
ghost use Rattle.property_circuits.specs.Starts.{IsCheck, IsCheckIn};

use circuit_core::laws::extensions_join;
use circuit_core::{Check, Net, Netlist};
use psl_meaning::laws::{
    always_is_its_body_at_each_place, always_is_its_body_at_each_place_so_far,
};
use psl_model::{Expr, Sere};
use psl_rewrite::violations::{
    a_boolean_is_judged_by_the_first_letter, a_conjunction_is_violated_by_a_side,
    an_alternative_is_violated_where_its_test_fails,
    an_implication_is_violated_where_its_test_holds, tops_for_ever_satisfy,
};
use sequence_matches::laws::growths_within_join;
use sequence_matches::{Matched, matches};
use std::alloc::{AllocError, Global};
use violation_laws::{
    suffix_is_its_body_after_each_match, suffix_is_its_body_after_each_match_so_far,
};

// The check of a Boolean: a start that isn't cleared in its cycle fails there, where the expression doesn't hold.
pub fn check_bool(
    net: &mut Netlist,
    expr: &Expr,
    start: Net,
    clear: Net,
) -> Result<Check, AllocError>
    requires guard { IsGuard net.old.widths (expr_of expr.now) }
    requires start { IsNet net.old start.0 }
    requires clear { IsNet net.old clear.0 }
    ensures kept { Extends net.old net.new }
    ensures grows { OnOk result (GrowsWithin net.old net.new 0) }
    ensures fail_net { IfOk result (λ c. IsNet net.new c.fail.0) }
    ensures pend_net { IfOk result (λ c. IsNet net.new c.pend.0) }
    ensures check { IfOk result (λ c.
        IsCheckIn net.new net.old.widths (base.bool (expr_of expr.now)) start.0 clear.0 c.fail.0 c.pend.0) }
{
    a_boolean_is_judged_by_the_first_letter();
    extensions_join();
    let test = net.guard(expr)?;
    let missed = net.not(test)?;
    let open = net.not(clear)?;
    let begun = net.and(start, open)?;
    let fail = net.and(begun, missed)?;
    let pend = net.bit(false)?;
    Ok(Check { fail, pend })
}

// Checks of two formulas, as one of both.
pub fn join(net: &mut Netlist, left: Check, right: Check) -> Result<Check, AllocError>
    requires left_fail { IsNet net.old left.fail.0 }
    requires left_pend { IsNet net.old left.pend.0 }
    requires right_fail { IsNet net.old right.fail.0 }
    requires right_pend { IsNet net.old right.pend.0 }
    ensures kept { Extends net.old net.new }
    ensures grows { OnOk result (GrowsWithin net.old net.new 0) }
    ensures fail_net { IfOk result (λ c. IsNet net.new c.fail.0) }
    ensures pend_net { IfOk result (λ c. IsNet net.new c.pend.0) }
    ensures check { IfOk result (λ c. InEachRun net.new (λ inputs run.
        (widths : List ℕ) (f g : Base) (start clear : Stream) →
        IsCheck widths inputs.trace f start clear (run left.fail.0) (run left.pend.0) →
        IsCheck widths inputs.trace g start clear (run right.fail.0) (run right.pend.0) →
        IsCheck widths inputs.trace (base.and f g) start clear (run c.fail.0) (run c.pend.0))) }
{
    a_conjunction_is_violated_by_a_side();
    let fail = net.or(left.fail, right.fail)?;
    let pend = net.or(left.pend, right.pend)?;
    Ok(Check { fail, pend })
}

// The starts at which the expression doesn't hold: a body that is checked from them on is checked as an alternative to
// the expression.
pub fn starts_without(net: &mut Netlist, expr: &Expr, start: Net) -> Result<Net, AllocError>
    requires guard { IsGuard net.old.widths (expr_of expr.now) }
    requires start { IsNet net.old start.0 }
    ensures kept { Extends net.old net.new }
    ensures grows { OnOk result (GrowsWithin net.old net.new 0) }
    ensures net { IfOk result (λ k. IsNet net.new k.0) }
    ensures check { IfOk result (λ k. InEachRun net.new (λ inputs run.
        (f : Base) (clear fail pend : Stream) →
        IsCheck net.old.widths inputs.trace f (run k.0) clear fail pend →
        IsCheck net.old.widths inputs.trace (base.or_bool (expr_of expr.now) f) (run start.0) clear fail pend)) }
{
    an_alternative_is_violated_where_its_test_fails();
    let test = net.guard(expr)?;
    let missed = net.not(test)?;
    let begun = net.and(start, missed)?;
    Ok(begun)
}

// The starts at which the expression holds: a body that is checked from them on is checked as implied by the
// expression.
pub fn starts_with(net: &mut Netlist, expr: &Expr, start: Net) -> Result<Net, AllocError>
    requires guard { IsGuard net.old.widths (expr_of expr.now) }
    requires start { IsNet net.old start.0 }
    ensures kept { Extends net.old net.new }
    ensures grows { OnOk result (GrowsWithin net.old net.new 0) }
    ensures net { IfOk result (λ k. IsNet net.new k.0) }
    ensures check { IfOk result (λ k. InEachRun net.new (λ inputs run.
        (f : Base) (clear fail pend : Stream) →
        IsCheck net.old.widths inputs.trace f (run k.0) clear fail pend →
        IsCheck net.old.widths inputs.trace (base.implies (expr_of expr.now) f) (run start.0) clear fail pend)) }
{
    an_implication_is_violated_where_its_test_holds();
    let test = net.guard(expr)?;
    let begun = net.and(start, test)?;
    Ok(begun)
}

// On in each cycle in which some start is open, its own included: a body that is checked from these cycles on is
// checked always.
pub fn open_starts(net: &mut Netlist, start: Net, clear: Net) -> Result<Net, AllocError>
    requires start { IsNet net.old start.0 }
    requires clear { IsNet net.old clear.0 }
    ensures kept { Extends net.old net.new }
    ensures grows { OnOk result (GrowsWithin net.old net.new 1) }
    ensures net { IfOk result (λ k. IsNet net.new k.0) }
    ensures check { IfOk result (λ k. InEachRun net.new (λ inputs run.
        (widths : List ℕ) (f : Base) (fail pend : Stream) → IsBuilt f →
        IsCheck widths inputs.trace f (run k.0) (run clear.0) fail pend →
        IsCheck widths inputs.trace (base.always f) (run start.0) (run clear.0) fail pend)) }
{
    tops_for_ever_satisfy();
    always_is_its_body_at_each_place();
    always_is_its_body_at_each_place_so_far();
    growths_within_join();
    let live = strong_obligations::open_starts(net, start, clear)?;
    Ok(live)
}

// On in each cycle in which a sequence has matched: a body that is checked from these cycles on is checked behind the
// sequence. The steps of the sequence are told too.
pub fn starts_after(
    alloc: Global,
    net: &mut Netlist,
    sere: &Sere,
    start: Net,
    clear: Net,
) -> Result<Matched, AllocError>
    requires small { places_of (sere_of sere.now) ≤ place_limit }
    requires guards { SereHas (IsGuard net.old.widths) (sere_of sere.now) }
    requires start { IsNet net.old start.0 }
    requires clear { IsNet net.old clear.0 }
    ensures kept { Extends net.old net.new }
    ensures grows { OnOk result (GrowsWithin net.old net.new (places_of (sere_of sere.now))) }
    ensures net { IfOk result (λ x. IsNet net.new x.net.0) }
    ensures steps { IfOk result (λ x. SequenceHasSteps (sere_of sere.now) x.steps) }
    ensures check { IfOk result (λ x. InEachRun net.new (λ inputs run.
        (f : Base) (fail pend : Stream) → IsBuilt f →
        IsCheck net.old.widths inputs.trace f (run x.net.0) (run clear.0) fail pend →
        IsCheck net.old.widths inputs.trace (base.suffix (sere_of sere.now) f) (run start.0) (run clear.0) fail pend)) }
{
    tops_for_ever_satisfy();
    suffix_is_its_body_after_each_match_so_far();
    suffix_is_its_body_after_each_match();
    let found = matches(alloc, net, sere, start, clear)?;
    Ok(found)
}
