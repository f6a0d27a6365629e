//! What the compiler rests on. The functions do nothing: each contract is a law.

ghost use Rattle.std.specs.Prelude.{◌≡◌, ◌↔◌, ◌<◌, ◌^◌, ℕ, List, length};
ghost use Rattle.psl_model.specs.Formula.{Formula};
ghost use Rattle.psl_model.specs.Unit.{PslUnit, Directive};
ghost use Rattle.psl_model.specs.Uses.{used_places};
ghost use Rattle.psl_rewrite.specs.BaseForm.{base_form_of};
ghost use Rattle.psl_rewrite.specs.Conditions.{IsAllowed, FormulaHas};
ghost use Rattle.psl_rewrite.specs.Meaning.{named};
ghost use Rattle.port_formulas.specs.Chosen.{chosen};
ghost use Rattle.port_formulas.specs.Over.{over};
ghost use Rattle.property_circuits.specs.Conditions as base;
ghost use Rattle.property_circuits.specs.Conditions.{HasGuards};
ghost use Rattle.formula_limits.specs.Places.{AreSmall, HasTooManyPlaces};
ghost use Rattle.formula_limits.specs.Registers.{budget_of};
ghost use Rattle.formula_limits.specs.Steps.{HasSteps};
ghost use Rattle.verilog_text.specs.Interface.{IsInterface, port_widths};
ghost use Rattle.checker_meaning.specs.Headline.{module_name, shown_report, ports_of, places_of, widths_of};
ghost use Rattle.checked_modules.specs.Readings.{ReadsAs};
ghost use Rattle.mbac_compile.specs.Built.{IsBuilt};
ghost use Rattle.mbac_compile.specs.Units.{IsWellNamed, IsWellWorded, expression_parentheses_limit};

use port_conditions::laws::{
    a_formula_over_its_signals_keeps_the_conditions, an_allowed_formula_uses_signals_of_its_table,
};
use port_formulas::laws::{
    a_formula_over_its_signals_is_violated_alike, chosen_values_fit,
    used_places_are_those_of_the_used_signals,
};
use port_steps::laws::a_sequence_over_its_signals_counts_the_same;
use psl_rewrite::laws::{a_base_form_keeps_the_conditions, a_base_form_keeps_the_meaning};

/// The base form of a built formula over some signals is one that circuits are made of.
pub(crate) fn a_built_formula_has_a_built_base_form()
    ensures built { (places : List ℕ) (f : Formula) → IsBuilt f → base.IsBuilt (base_form_of (over places f)) }
{}

/// Over the signals that it uses, a formula's base form has the places, the registers and the steps of the formula's own
/// base form.
pub(crate) fn a_built_formula_counts_as_its_base_form()
    ensures small { (places : List ℕ) (f : Formula) →
        AreSmall (base_form_of (over places f)) ↔ AreSmall (base_form_of f) }
    ensures too_many_places { (places : List ℕ) (f : Formula) (n p : ℕ) →
        HasTooManyPlaces (base_form_of (over places f)) n p ↔ HasTooManyPlaces (base_form_of f) n p }
    ensures budget { (places : List ℕ) (f : Formula) →
        budget_of (base_form_of (over places f)) ≡ budget_of (base_form_of f) }
    ensures steps { (widths : List ℕ) (f : Formula) (k : ℕ) →
        FormulaHas (IsAllowed widths expression_parentheses_limit) f →
        HasSteps (base_form_of (over (used_places (length widths) f) f)) k ↔ HasSteps (base_form_of f) k }
{
    a_sequence_over_its_signals_counts_the_same();
    used_places_are_those_of_the_used_signals();
    an_allowed_formula_uses_signals_of_its_table();
}

/// Over the signals that it uses, a built formula's base form has guards, and says what the formula says.
pub(crate) fn a_built_formula_reads_as_its_base_form()
    ensures guards { (widths : List ℕ) (f : Formula) →
        IsBuilt f → FormulaHas (IsAllowed widths expression_parentheses_limit) f →
        let places = used_places (length widths) f in
        HasGuards (chosen places widths) (base_form_of (over places f)) }
    ensures reads { (widths : List ℕ) (f : Formula) →
        IsBuilt f → FormulaHas (IsAllowed widths expression_parentheses_limit) f →
        let places = used_places (length widths) f in
        ReadsAs widths places (chosen places widths) f (named (base_form_of (over places f))) }
{
    used_places_are_those_of_the_used_signals();
    chosen_values_fit();
    a_formula_over_its_signals_is_violated_alike();
    an_allowed_formula_uses_signals_of_its_table();
    a_formula_over_its_signals_keeps_the_conditions();
    a_base_form_keeps_the_meaning();
    a_base_form_keeps_the_conditions();
}

/// A unit that is well named and a directive that is well worded give what a module may be called, tell and watch.
pub(crate) fn a_unit_gives_interfaces()
    ensures interface { (unit : PslUnit) (number : ℕ) (directive : Directive) → number < 2 ^ 64 →
        IsWellNamed unit → IsWellWorded directive →
        IsInterface (module_name unit number directive) (shown_report directive.report) (ports_of unit directive) }
    ensures widths { (unit : PslUnit) (directive : Directive) →
        port_widths (ports_of unit directive) ≡ chosen (places_of unit directive) (widths_of unit) }
{
    used_places_are_those_of_the_used_signals();
}
