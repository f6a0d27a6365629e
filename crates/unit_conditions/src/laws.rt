//! What follows from the definition of a unit's text. The functions do nothing: each contract is the law.

ghost use Rattle.std.specs.Prelude.{◌≢◌, ◌≤◌, ℕ, List, All, AllPairs, IfSome, map, length};
ghost use Rattle.psl_model.specs.declared.names.Signal.{Signal};
ghost use Rattle.psl_model.specs.Names.{IsIdentifier};
ghost use Rattle.psl_model.specs.Unit.{PslUnit, Directive};
ghost use Rattle.psl_rewrite.specs.Conditions.{IsAllowed, FormulaHas};
ghost use Rattle.verilog_text.specs.Module.{IsPort};
ghost use Rattle.unit_rules.specs.Limits.{depth_limit};
ghost use Rattle.psl_units.specs.Having.{unit_widths};
ghost use Rattle.psl_units.specs.StandsForUnit.{StandsForUnit};
ghost use Rattle.unit_conditions.specs.Labels.{HaveOwnLabels};
ghost use Rattle.unit_conditions.specs.ReportText.{IsReportText};

use psl_grammar::laws::a_unit_names_its_tokens_in_order;
use psl_lexer::laws::{tokens_are_spelled, tokens_stand_in_order};
use psl_units::laws::expressions_of_a_unit_are_valid;

/// A unit's name is an identifier. Its signals have names that a unit may use, each once, and widths of vectors.
pub fn units_are_well_named()
    ensures name { (bytes : List ℕ) (unit : PslUnit) → StandsForUnit bytes unit → IsIdentifier unit.name }
    ensures signals { (bytes : List ℕ) (unit : PslUnit) → StandsForUnit bytes unit → All IsPort unit.signals }
    ensures distinct { (bytes : List ℕ) (unit : PslUnit) → StandsForUnit bytes unit
        → AllPairs (λ p q. p ≢ q) (map (λ (s : Signal). s.name) unit.signals) }
{
    tokens_are_spelled();
}

/// A directive's label is an identifier, and its report a text of printable bytes.
pub fn directives_are_well_worded()
    ensures labels { (bytes : List ℕ) (unit : PslUnit) → StandsForUnit bytes unit
        → All (λ (d : Directive). IfSome d.label IsIdentifier) unit.directives }
    ensures reports { (bytes : List ℕ) (unit : PslUnit) → StandsForUnit bytes unit
        → All (λ (d : Directive). IfSome d.report IsReportText) unit.directives }
{
    tokens_are_spelled();
}

/// No two directives have the same label.
pub fn labels_are_different()
    ensures { (bytes : List ℕ) (unit : PslUnit) → StandsForUnit bytes unit
        → AllPairs HaveOwnLabels unit.directives }
{}

/// There are no more directives than bytes.
pub fn directives_are_few()
    ensures { (bytes : List ℕ) (unit : PslUnit) → StandsForUnit bytes unit
        → length unit.directives ≤ length bytes }
{
    tokens_stand_in_order();
    a_unit_names_its_tokens_in_order();
}

/// The expressions of a unit are valid for its signals. No place of one's text stands in more parentheses than its
/// directive has levels at most.
pub fn expressions_are_valid_and_shallow()
    ensures { (bytes : List ℕ) (unit : PslUnit) (limit : ℕ) → StandsForUnit bytes unit → depth_limit ≤ limit
        → All (λ (d : Directive). FormulaHas (IsAllowed (unit_widths unit) limit) d.formula) unit.directives }
{
    expressions_of_a_unit_are_valid();
}
