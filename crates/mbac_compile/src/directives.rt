//! The checker module of a directive.

ghost use Rattle.std.specs.Prelude.{◌≡◌, ◌≤◌, IfOk, IfErr, OnOk, IsErrOf, sum};
ghost use Rattle.psl_model.specs.UnitView.{unit_of, directive_of};
ghost use Rattle.psl_model.specs.View.{formula_of};
ghost use Rattle.psl_rewrite.specs.BaseForm.{base_form_of};
ghost use Rattle.verilog_text.specs.Module.{IsLawful};
ghost use Rattle.verilog_text.specs.State.{register_widths};
ghost use Rattle.verilog_text.specs.View.{module_of};
ghost use Rattle.formula_limits.specs.Places.{AreSmall};
ghost use Rattle.formula_limits.specs.Registers.{budget_of, register_limit};
ghost use Rattle.formula_limits.specs.Steps.{HasSteps, step_limit};
ghost use Rattle.property_circuits.specs.Refusals.{IsRefusal};
ghost use Rattle.checker_meaning.specs.Headline.{IsCheckerOf};
ghost use Rattle.mbac_compile.specs.Built.{IsBuilt};
ghost use Rattle.mbac_compile.specs.Units.{IsWellNamed, IsWellWorded, IsWellFormed};
ghost use Rattle.mbac_compile.specs.Refusals.{IsUnfit, IsRefused};
ghost use Rattle.mbac_compile.specs.declared.directives.CheckError.{CheckError};
ghost use Rattle.mbac_compile.specs.declared.directives.CheckError.TheVariants.{Subset, Circuit};

use crate::checkers::{Checker, checker_of};
use crate::formulas::{base_over, has_built_form};
use crate::interfaces::{module_name, ports_at, shown_report, widths_of};
use crate::laws::{
    a_built_formula_counts_as_its_base_form, a_built_formula_has_a_built_base_form,
    a_built_formula_reads_as_its_base_form, a_unit_gives_interfaces,
};
use port_formulas::used_places;
use property_circuits::CircuitError;
use psl_model::{Directive, Formula, PslUnit};
use simple_subset::{Rule, check};
use std::alloc::Global;

/// Why a directive gets no checker.
#[derive(Clone, Copy, Debug, PartialEq, Eq)]
pub enum CheckError {
    /// The formula is outside the simple subset: this rule is broken first.
    Subset(Rule),
    /// Checkers aren't made of such formulas yet.
    Unbuilt,
    /// The base form of the formula gets no circuit.
    Circuit(CircuitError),
}

impl From<Rule> for CheckError {
    ghost from_gives = { λ rule e. e ≡ Subset rule };

    fn from(rule: Rule) -> CheckError {
        CheckError::Subset(rule)
    }
}

impl From<CircuitError> for CheckError {
    ghost from_gives = { λ error e. e ≡ Circuit error };

    fn from(error: CircuitError) -> CheckError {
        CheckError::Circuit(error)
    }
}

/// Whether checkers are made of a formula of this form, and if not, why. It takes no memory, and recurs as deep as the
/// formula is high.
pub fn check_form(formula: &Formula) -> Result<(), CheckError>
    ensures built { OnOk result (IsBuilt (formula_of formula.now)) }
    ensures unfit { IfErr result (IsUnfit (formula_of formula.now)) }
{
    check(formula)?;
    if has_built_form(formula) {
        Ok(())
    } else {
        Err(CheckError::Unbuilt)
    }
}

/// The checker of a unit's directive, where so many steps are left. The number is the directive's place among those of
/// its unit, from 1; the name of a directive without a label has it.
#[tactic(auto, using(crate::proofs::Refused::refused_so))]
pub fn checker_of_directive(
    alloc: Global,
    unit: &PslUnit,
    number: usize,
    directive: &Directive,
    steps_left: u64,
) -> Result<Checker, CheckError>
    requires names { IsWellNamed (unit_of unit.now) }
    requires words { IsWellWorded (directive_of directive.now) }
    requires expressions { IsWellFormed (unit_of unit.now) (directive_of directive.now) }
    requires steps_left { steps_left ≤ step_limit }
    ensures checker { IfOk result (λ x.
        IsCheckerOf (unit_of unit.now) number (directive_of directive.now) (module_of x.checker)) }
    ensures lawful { IfOk result (λ x. IsLawful (module_of x.checker)) }
    ensures bits { IfOk result (λ x.
        sum (register_widths (module_of x.checker)) ≤ budget_of (base_form_of (formula_of directive.now.formula))) }
    ensures steps { IfOk result (λ x. HasSteps (base_form_of (formula_of directive.now.formula)) x.steps) }
    ensures within { IfOk result (λ x. AreSmall (base_form_of (formula_of directive.now.formula))
        × (budget_of (base_form_of (formula_of directive.now.formula)) ≤ register_limit) × (x.steps ≤ steps_left)) }
    ensures built { OnOk result (IsBuilt (formula_of directive.now.formula)) }
    ensures unfit { (error : CheckError) → IsUnfit (formula_of directive.now.formula) error → IsErrOf result error }
    ensures refused { IfErr result (IsRefused (formula_of directive.now.formula) steps_left) }
{
    check_form(&directive.formula)?;
    let checker = built_checker(alloc, unit, number, directive, steps_left)?;
    Ok(checker)
}

/// The same of a built formula.
fn built_checker(
    alloc: Global,
    unit: &PslUnit,
    number: usize,
    directive: &Directive,
    steps_left: u64,
) -> Result<Checker, CircuitError>
    requires names { IsWellNamed (unit_of unit.now) }
    requires words { IsWellWorded (directive_of directive.now) }
    requires expressions { IsWellFormed (unit_of unit.now) (directive_of directive.now) }
    requires steps_left { steps_left ≤ step_limit }
    requires built { IsBuilt (formula_of directive.now.formula) }
    ensures checker { IfOk result (λ x.
        IsCheckerOf (unit_of unit.now) number (directive_of directive.now) (module_of x.checker)) }
    ensures lawful { IfOk result (λ x. IsLawful (module_of x.checker)) }
    ensures bits { IfOk result (λ x.
        sum (register_widths (module_of x.checker)) ≤ budget_of (base_form_of (formula_of directive.now.formula))) }
    ensures steps { IfOk result (λ x. HasSteps (base_form_of (formula_of directive.now.formula)) x.steps) }
    ensures within { IfOk result (λ x. AreSmall (base_form_of (formula_of directive.now.formula))
        × (budget_of (base_form_of (formula_of directive.now.formula)) ≤ register_limit) × (x.steps ≤ steps_left)) }
    ensures refused { IfErr result
        (IsRefusal (base_form_of (formula_of directive.now.formula)) steps_left) }
{
    a_built_formula_has_a_built_base_form();
    a_built_formula_counts_as_its_base_form();
    a_built_formula_reads_as_its_base_form();
    a_unit_gives_interfaces();
    let places = used_places(alloc, unit.signals.len(), &directive.formula)?;
    let base = base_over(alloc, &places, &directive.formula)?;
    let ports = ports_at(alloc, unit.signals.as_slice(), &places)?;
    let widths = widths_of(alloc, &ports)?;
    let name = module_name(alloc, &unit.name, number, &directive.label)?;
    let report = shown_report(alloc, &directive.report)?;
    let checker = checker_of(alloc, &base, &widths, steps_left, name, report, ports)?;
    Ok(checker)
}
