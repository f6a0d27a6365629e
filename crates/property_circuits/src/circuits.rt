//! The circuit of a base formula.

ghost use Rattle.std.specs.Prelude.{◌≡◌, ◌↔◌, ◌⊎◌, ◌<◌, ◌≤◌, ℕ, [], None, All, IfOk, IfErr, OnOk, IsErrOf};
ghost use Rattle.psl_rewrite.specs.View.{base_of};
ghost use Rattle.psl_rewrite.specs.Meaning.{named};
ghost use Rattle.circuit_core.specs.Netlist.{IsNet};
ghost use Rattle.circuit_core.specs.Run.{On, Throughout, InEachRun, InEachCycle};
ghost use Rattle.circuit_core.specs.Growth.{Extends, Grows};
ghost use Rattle.circuit_core.specs.WellMade.{IsWidth, IsFinished};
ghost use Rattle.property_circuits.specs.Conditions.{IsBuilt, HasGuards};
ghost use Rattle.property_circuits.specs.Told.{IsTold};
ghost use Rattle.formula_limits.specs.Places.{AreSmall, HasTooManyPlaces};
ghost use Rattle.formula_limits.specs.Registers.{budget_of, register_limit};
ghost use Rattle.formula_limits.specs.Steps.{HasSteps, step_limit};
ghost use Rattle.sequence_cores.specs.Places.{told};
ghost use Rattle.strong_obligations.specs.Bits.{register_bits};
ghost use Rattle.circuit_meaning.specs.Checks.{Checks};
ghost use Rattle.property_circuits.specs.Refusals.{IsRefusal, HasTooManyRegisters};
ghost use Rattle.property_circuits.specs.declared.circuits.CircuitError.TheVariants.{OutOfMemory};

use crate::checks::check_variant;
use circuit_core::laws::a_netlist_is_well_made;
use circuit_core::{Check, Net, Netlist};
use formula_limits::laws::the_first_large_sequence_is_one;
use formula_limits::{count_registers, large_sequence, told_sum};
use psl_meaning::laws::weak_violation_persists;
use psl_rewrite::Base;
use psl_rewrite::violations::a_weak_violation_is_a_violation;
use sequence_matches::laws::growths_within_join;
use std::alloc::{AllocError, Global};
use strong_obligations::laws::each_register_has_one_bit;

/// The most bits that the registers of a module may have.
const REGISTER_LIMIT: u64 = 65_536;

/// A netlist that checks a base formula, and how many steps the tables of its sequences have.
#[derive(Debug, Drop)]
pub struct Circuit {
    pub netlist: Netlist,
    pub steps: u64,
}

/// Why a base formula gets no circuit. Sequences are numbered from 1, in reading order. A count of at least 2^63 is
/// told as 2^63.
#[derive(Clone, Copy, Debug, PartialEq, Eq)]
pub enum CircuitError {
    TooManyPlaces { sequence: u32, places: u64 },
    /// Nothing can meet this sequence.
    Contradiction { sequence: u32 },
    SequenceTooLarge { sequence: u32 },
    /// The registers would have so many bits.
    TooManyRegisters { count: u64 },
    TooManySteps { count: u64 },
    OutOfMemory,
}

impl From<AllocError> for CircuitError {
    ghost from_gives = { λ _ e. e ≡ OutOfMemory };

    fn from(_error: AllocError) -> CircuitError {
        CircuitError::OutOfMemory
    }
}

// A net that is on in the first cycle alone, and one that never is.
fn first_cycle(net: &mut Netlist) -> Result<(Net, Net), AllocError>
    ensures kept { Extends net.old net.new }
    ensures grows { OnOk result (Grows net.old net.new 1) }
    ensures first_net { IfOk result (λ x. IsNet net.new x.0.0) }
    ensures never_net { IfOk result (λ x. IsNet net.new x.1.0) }
    ensures first { IfOk result (λ x. InEachCycle net.new (λ run n. On (run x.0.0) n ↔ n ≡ 0)) }
    ensures never { IfOk result (λ x. InEachCycle net.new (λ run n. ¬ On (run x.1.0) n)) }
{
    let (register, first) = net.reg(1, 1)?;
    let never = net.bit(false)?;
    net.set_next(register, never);
    Ok((first, never))
}

// On where a check fails, and where it pends in a cycle in which execution ends.
fn failing(net: &mut Netlist, check: Check) -> Result<Net, AllocError>
    requires fail { IsNet net.old check.fail.0 }
    requires pend { IsNet net.old check.pend.0 }
    ensures kept { Extends net.old net.new }
    ensures grows { OnOk result (Grows net.old net.new 0) }
    ensures net { IfOk result (λ k. IsNet net.new k.0) }
    ensures stream { IfOk result (λ k. InEachRun net.new (λ inputs run. Throughout inputs (λ n.
        On (run k.0) n ↔ (On (run check.fail.0) n ⊎ (On inputs.eot n × On (run check.pend.0) n))))) }
{
    let end = net.eot()?;
    let last = net.and(end, check.pend)?;
    let out = net.or(check.fail, last)?;
    Ok(out)
}

// A netlist without nodes.
fn over(alloc: Global, widths: &[u32]) -> Result<Netlist, AllocError>
    requires { All IsWidth widths.now }
    ensures { IfOk result (λ m. m ≡ record { widths = widths.now; nodes = []; registers = []; output = None }) }
{
    let widths = widths.to_vec(alloc)?;
    Netlist::new(alloc, widths)
}

// The circuit, whatever its size. Its steps are as they are told.
fn whole_check(alloc: Global, base: &Base, widths: &[u32]) -> Result<Circuit, AllocError>
    requires built { IsBuilt (base_of base.now) }
    requires small { AreSmall (base_of base.now) }
    requires widths { All IsWidth widths.now }
    requires guards { HasGuards widths.now (base_of base.now) }
    ensures checks { IfOk result (λ x. Checks x.netlist widths.now (named (base_of base.now))) }
    ensures finished { IfOk result (λ x. IsFinished x.netlist) }
    ensures widths { IfOk result (λ x. x.netlist.widths ≡ widths.now) }
    ensures bits { IfOk result (λ x. register_bits x.netlist ≤ budget_of (base_of base.now)) }
    ensures steps { IfOk result (λ x. IsTold (base_of base.now) x.steps) }
{
    weak_violation_persists();
    a_weak_violation_is_a_violation();
    growths_within_join();
    each_register_has_one_bit();
    let mut net = over(alloc, widths)?;
    let (start, never) = first_cycle(&mut net)?;
    let each = check_variant(alloc, &mut net, base, start, never)?;
    let out = failing(&mut net, each.check)?;
    net.finish(out);
    a_netlist_is_well_made(&net);
    Ok(Circuit {
        netlist: net,
        steps: each.steps,
    })
}

// The circuit of a formula whose sequences are small.
fn small_circuit(
    alloc: Global,
    base: &Base,
    widths: &[u32],
    steps_left: u64,
) -> Result<Circuit, CircuitError>
    requires built { IsBuilt (base_of base.now) }
    requires small { AreSmall (base_of base.now) }
    requires widths { All IsWidth widths.now }
    requires guards { HasGuards widths.now (base_of base.now) }
    requires steps_left { steps_left ≤ step_limit }
    ensures checks { IfOk result (λ x. Checks x.netlist widths.now (named (base_of base.now))) }
    ensures finished { IfOk result (λ x. IsFinished x.netlist) }
    ensures widths { IfOk result (λ x. x.netlist.widths ≡ widths.now) }
    ensures bits { IfOk result (λ x. register_bits x.netlist ≤ budget_of (base_of base.now)) }
    ensures steps { IfOk result (λ x. HasSteps (base_of base.now) x.steps) }
    ensures within { IfOk result (λ x. (budget_of (base_of base.now) ≤ register_limit) × (x.steps ≤ steps_left)) }
    ensures refused { IfErr result (λ e. IsRefusal (base_of base.now) steps_left e) }
    ensures too_many_registers { IsErrOf result (CircuitError.TooManyRegisters (told (budget_of (base_of base.now))))
        ↔ register_limit < budget_of (base_of base.now) }
    ensures no_place { (n p : ℕ) → ¬ IsErrOf result (CircuitError.TooManyPlaces n p) }
{
    let count = told_sum(1, count_registers(base));
    if count > REGISTER_LIMIT {
        return Err(CircuitError::TooManyRegisters { count });
    }
    let circuit = whole_check(alloc, base, widths)?;
    if circuit.steps > steps_left {
        return Err(CircuitError::TooManySteps {
            count: circuit.steps,
        });
    }
    Ok(circuit)
}

/// A netlist over signals of these widths that checks a base formula, and how many steps it has. The formula is refused
/// for its first sequence that has more than 4,096 places; where its registers may be more than 65,536 bits, with the
/// one that tells the first cycle; and where it has more steps than are left.
pub fn check_circuit(
    alloc: Global,
    base: &Base,
    widths: &[u32],
    steps_left: u64,
) -> Result<Circuit, CircuitError>
    requires built { IsBuilt (base_of base.now) }
    requires widths { All IsWidth widths.now }
    requires guards { HasGuards widths.now (base_of base.now) }
    requires steps_left { steps_left ≤ step_limit }
    ensures checks { IfOk result (λ x. Checks x.netlist widths.now (named (base_of base.now))) }
    ensures finished { IfOk result (λ x. IsFinished x.netlist) }
    ensures widths { IfOk result (λ x. x.netlist.widths ≡ widths.now) }
    ensures bits { IfOk result (λ x. register_bits x.netlist ≤ budget_of (base_of base.now)) }
    ensures steps { IfOk result (λ x. HasSteps (base_of base.now) x.steps) }
    ensures within { IfOk result (λ x. AreSmall (base_of base.now) × (budget_of (base_of base.now) ≤ register_limit)
        × (x.steps ≤ steps_left)) }
    ensures refused { IfErr result (λ e. IsRefusal (base_of base.now) steps_left e) }
    ensures too_many_places { (n p : ℕ) →
        IsErrOf result (CircuitError.TooManyPlaces n p) ↔ HasTooManyPlaces (base_of base.now) n p }
    ensures too_many_registers { IsErrOf result (CircuitError.TooManyRegisters (told (budget_of (base_of base.now))))
        ↔ HasTooManyRegisters (base_of base.now) }
{
    the_first_large_sequence_is_one();
    match large_sequence(base) {
        Some(large) => Err(CircuitError::TooManyPlaces {
            sequence: large.sequence,
            places: large.places,
        }),
        None => small_circuit(alloc, base, widths, steps_left),
    }
}
