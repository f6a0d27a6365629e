//! What a formula over the signals that it uses takes over from its formula. The functions do nothing: each contract is
//! the law.

ghost use Rattle.std.specs.Prelude.{◌≡◌, ◌↔◌, ◌<◌, ℕ, List, IsTrue, length, map};
ghost use Rattle.psl_model.specs.Formula.{Formula};
ghost use Rattle.psl_model.specs.Uses.{formula_uses};
ghost use Rattle.simple_subset.specs.Subset.{broken_rules};
ghost use Rattle.psl_rewrite.specs.Conditions.{IsAllowed, FormulaHas, FormulaCounts, formula_sequences};
ghost use Rattle.psl_rewrite.specs.Obligations.{EachObligation, IsContradictory};
ghost use Rattle.port_formulas.specs.Chosen.{chosen, UsesOnly};
ghost use Rattle.port_formulas.specs.Over.{over_sere, over};

use port_formulas::laws::{
    a_sequence_over_its_signals_is_the_same, an_expression_over_its_signals_is_the_same,
    used_places_are_those_of_the_used_signals,
};

/// A formula whose expressions are allowed uses signals of their table alone.
pub fn an_allowed_formula_uses_signals_of_its_table()
    ensures { (widths : List ℕ) (limit : ℕ) (f : Formula) (place : ℕ) →
        FormulaHas (IsAllowed widths limit) f → IsTrue (formula_uses place f) → place < length widths }
{
    used_places_are_those_of_the_used_signals();
}

/// Over the places of the signals that it uses, a formula breaks the same rules of the simple subset, has allowed
/// expressions, counts that a unit may have, the sequences over these places, and no contradictory obligation that it
/// had not.
pub fn a_formula_over_its_signals_keeps_the_conditions()
    ensures rules { (places : List ℕ) (f : Formula) → broken_rules (over places f) ≡ broken_rules f }
    ensures expressions { (places widths : List ℕ) (limit : ℕ) (f : Formula) →
        UsesOnly places (λ signal. formula_uses signal f) → FormulaHas (IsAllowed widths limit) f →
        FormulaHas (IsAllowed (chosen places widths) limit) (over places f) }
    ensures counts { (places : List ℕ) (f : Formula) → FormulaCounts f → FormulaCounts (over places f) }
    ensures sequences { (places : List ℕ) (f : Formula) →
        formula_sequences (over places f) ≡ map (over_sere places) (formula_sequences f) }
    ensures obligations { (places widths : List ℕ) (f : Formula) →
        UsesOnly places (λ signal. formula_uses signal f) →
        EachObligation (λ r. ¬ IsContradictory widths r) f
        ↔ EachObligation (λ r. ¬ IsContradictory (chosen places widths) r) (over places f) }
{
    an_expression_over_its_signals_is_the_same();
    a_sequence_over_its_signals_is_the_same();
}
