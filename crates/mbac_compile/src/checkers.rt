//! The checker module of a base formula.

ghost use Rattle.std.specs.Prelude.{◌≡◌, ◌↔◌, ◌≤◌, ℕ, List, IfOk, IfErr, IsErrOf, sum};
ghost use Rattle.psl_model.specs.Formula.{Formula};
ghost use Rattle.psl_rewrite.specs.View.{base_of};
ghost use Rattle.psl_rewrite.specs.Meaning.{named};
ghost use Rattle.circuit_meaning.specs.Checks as circuit;
ghost use Rattle.verilog_text.specs.Interface.{IsInterface, port_widths};
ghost use Rattle.verilog_text.specs.Module.{IsLawful};
ghost use Rattle.verilog_text.specs.State.{register_widths};
ghost use Rattle.verilog_text.specs.View.{module_of};
ghost use Rattle.property_circuits.specs.Conditions.{IsBuilt, HasGuards};
ghost use Rattle.formula_limits.specs.Places.{AreSmall, HasTooManyPlaces};
ghost use Rattle.formula_limits.specs.Registers.{budget_of, register_limit};
ghost use Rattle.formula_limits.specs.Steps.{HasSteps, step_limit};
ghost use Rattle.sequence_cores.specs.Places.{told};
ghost use Rattle.property_circuits.specs.Refusals.{IsRefusal, HasTooManyRegisters};
ghost use Rattle.property_circuits.specs.declared.circuits.CircuitError.TheVariants.{TooManyPlaces, TooManyRegisters};
ghost use Rattle.checker_meaning.specs.Checks.{Checks};
ghost use Rattle.checked_modules.specs.Readings.{ReadsAs};

use checked_modules::a_module_of_a_checking_netlist_checks;
use property_circuits::{CircuitError, check_circuit};
use psl_model::{Name, Signal};
use psl_rewrite::Base;
use std::alloc::Global;
use verilog_text::{Module, to_module};

/// The checker module of a base formula, and how many steps the tables of its sequences have.
#[derive(Debug, Drop)]
pub struct Checker {
    pub checker: Module,
    pub steps: u64,
}

/// A module that checks a base formula over its ports, which have these widths in bits. It also checks each formula
/// over more signals that says of the signals at its ports' places what the base formula says. The formula is refused
/// where its circuit is.
pub fn checker_of(
    alloc: Global,
    base: &Base,
    widths: &[u32],
    steps_left: u64,
    name: Name,
    report: Option<Name>,
    ports: Vec<Signal>,
) -> Result<Checker, CircuitError>
    requires built { IsBuilt (base_of base.now) }
    requires guards { HasGuards widths.now (base_of base.now) }
    requires steps_left { steps_left ≤ step_limit }
    requires interface { IsInterface name report ports.items }
    requires widths { port_widths ports.items ≡ widths.now }
    ensures checks { IfOk result (λ x. (all places : List ℕ) (f : Formula) →
        ReadsAs all places widths.now f (named (base_of base.now)) → Checks all places (module_of x.checker) f) }
    ensures lawful { IfOk result (λ x. IsLawful (module_of x.checker)) }
    ensures name { IfOk result (λ x. x.checker.name ≡ name) }
    ensures report { IfOk result (λ x. x.checker.report ≡ report) }
    ensures ports { IfOk result (λ x. x.checker.ports ≡ ports.items) }
    ensures bits { IfOk result (λ x. sum (register_widths (module_of x.checker)) ≤ budget_of (base_of base.now)) }
    ensures steps { IfOk result (λ x. HasSteps (base_of base.now) x.steps) }
    ensures within { IfOk result (λ x. AreSmall (base_of base.now) × (budget_of (base_of base.now) ≤ register_limit)
        × (x.steps ≤ steps_left)) }
    ensures refused { IfErr result (λ e. IsRefusal (base_of base.now) steps_left e) }
    ensures too_many_places { (n p : ℕ) →
        IsErrOf result (TooManyPlaces n p) ↔ HasTooManyPlaces (base_of base.now) n p }
    ensures too_many_registers { IsErrOf result (TooManyRegisters (told (budget_of (base_of base.now))))
        ↔ HasTooManyRegisters (base_of base.now) }
{
    a_module_of_a_checking_netlist_checks();
    let circuit = check_circuit(alloc, base, widths, steps_left)?;
    let steps = circuit.steps;
    let checker = to_module(alloc, &circuit.netlist, name, report, ports)?;
    Ok(Checker { checker, steps })
}
