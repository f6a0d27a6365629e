//! The check of a formula, and laws of checks.

ghost use Rattle.std.specs.Prelude.{◌≡◌, ◌↔◌, ◌<◌, ◌≤◌, ◌+◌, ℕ, suc, List, IfOk, OnOk, length};
ghost use Rattle.psl_meaning.specs.Word.{Valuation};
ghost use Rattle.psl_rewrite.specs.View.{base_of};
ghost use Rattle.psl_rewrite.specs.Base as base;
ghost use Rattle.circuit_core.specs.Netlist.{IsNet};
ghost use Rattle.circuit_core.specs.Run.{Stream, On};
ghost use Rattle.circuit_core.specs.Starts.{SomeStart, ComesBy};
ghost use Rattle.circuit_core.specs.Growth.{Extends};
ghost use Rattle.property_circuits.specs.Conditions.{IsBuilt, HasGuards};
ghost use Rattle.sequence_matches.specs.Growth.{GrowsWithin};
ghost use Rattle.formula_limits.specs.Places.{AreSmall};
ghost use Rattle.formula_limits.specs.Registers.{registers_of};
ghost use Rattle.strong_obligations.specs.Bits.{register_bits};
ghost use Rattle.property_circuits.specs.Starts.{IsCheck, IsCheckIn, IsStop, StartViolates, StartPends, Weak};

use crate::checks::check_variant;
use circuit_core::laws::a_netlist_is_well_made;
use circuit_core::{Check, Net, Netlist};
use psl_meaning::laws::weak_violation_persists;
use psl_rewrite::Base;
use std::alloc::{AllocError, Global};
use strong_obligations::laws::each_register_has_one_bit;

/// The check of a base formula that two nets start and clear, whatever their streams. The old nets and registers stay,
/// and the new registers, at most as many as are counted for the formula, are set.
pub fn check_at(
    alloc: Global,
    net: &mut Netlist,
    base: &Base,
    start: Net,
    clear: Net,
) -> Result<Check, AllocError>
    requires built { IsBuilt (base_of base.now) }
    requires small { AreSmall (base_of base.now) }
    requires guards { HasGuards net.old.widths (base_of base.now) }
    requires start { IsNet net.old start.0 }
    requires clear { IsNet net.old clear.0 }
    ensures kept { Extends net.old net.new }
    ensures grows { OnOk result (GrowsWithin net.old net.new (registers_of (base_of base.now))) }
    ensures bits { OnOk result (register_bits net.new ≤ register_bits net.old + registers_of (base_of base.now)) }
    ensures fail_net { IfOk result (λ c. IsNet net.new c.fail.0) }
    ensures pend_net { IfOk result (λ c. IsNet net.new c.pend.0) }
    ensures check { IfOk result (λ c.
        IsCheckIn net.new net.old.widths (base_of base.now) start.0 clear.0 c.fail.0 c.pend.0) }
{
    each_register_has_one_bit();
    a_netlist_is_well_made(net);
    let each = check_variant(alloc, net, base, start, clear)?;
    a_netlist_is_well_made(net);
    Ok(each.check)
}

/// What the two streams of a check tell of starts. The function does nothing.
pub fn a_check_tells_which_starts_violate_and_pend()
    ensures fails { (widths : List ℕ) (trace : List Valuation) (f : base.Base) (start clear fail pend : Stream) →
        IsCheck widths trace f start clear fail pend → (n : ℕ) → n < length trace →
        ComesBy fail n ↔ SomeStart start n (StartViolates widths trace f clear n) }
    ensures pends { (widths : List ℕ) (trace : List Valuation) (f : base.Base) (start clear fail pend : Stream) →
        IsCheck widths trace f start clear fail pend → (n : ℕ) → n < length trace →
        ¬ SomeStart start n (StartViolates widths trace f clear n) →
        On pend n ↔ SomeStart start n (StartPends widths trace f clear n) }
{}

/// By n, a start has violated exactly if the letters from it up to its stop violate already: up to the cycle before the
/// first that is cleared, or up to n. A start that is cleared in its own cycle never violates. The function does
/// nothing.
pub fn a_start_violates_up_to_its_stop()
    ensures later { (widths : List ℕ) (trace : List Valuation) (f : base.Base) (clear : Stream) (i n last : ℕ) →
        i ≤ last → IsStop clear i n (suc last) →
        StartViolates widths trace f clear n i ↔ Weak widths trace f i last }
    ensures at_once { (widths : List ℕ) (trace : List Valuation) (f : base.Base) (clear : Stream) (i n : ℕ) →
        i ≤ n → IsStop clear i n i → ¬ StartViolates widths trace f clear n i }
{
    weak_violation_persists();
}
