//! Laws of formulas over the signals at some places. The functions do nothing: each contract is the law.

ghost use Rattle.std.specs.Prelude.{◌≡◌, ◌↔◌, ◌<◌, ℕ, List, All, Contains, IsTrue, length, map};
ghost use Rattle.std.specs.List.Sorted.{IsStrictlyIncreasing};
ghost use Rattle.psl_model.specs.Expr.{Expr};
ghost use Rattle.psl_model.specs.Sere.{Sere};
ghost use Rattle.psl_model.specs.Formula.{Formula};
ghost use Rattle.psl_model.specs.Uses.{expr_uses, sere_uses, formula_uses, used_places};
ghost use Rattle.psl_model.specs.Valid.{IsValid, parentheses};
ghost use Rattle.psl_model.specs.Value.{width_of, value_of, FitWidths};
ghost use Rattle.psl_meaning.specs.Word.{Valuation, Letter, Word};
ghost use Rattle.psl_meaning.specs.Sequence.{Tight};
ghost use Rattle.psl_meaning.specs.SequenceSugar.{core_of};
ghost use Rattle.psl_meaning.specs.Formula.{Satisfies};
ghost use Rattle.psl_meaning.specs.FormulaSugar.{core_formula_of};
ghost use Rattle.psl_meaning.specs.Violation.{WeaklyViolates, Violates};
ghost use Rattle.port_formulas.specs.Chosen.{chosen, UsesOnly, chosen_letter, chosen_word};
ghost use Rattle.port_formulas.specs.Over.{over_expr, over_sere, over};

/// The places that a formula uses ascend, are below the count, and are exactly those of the signals that it uses. So a
/// formula over signals below the count uses only signals at these places. A valid expression uses signals of its table
/// alone.
pub fn used_places_are_those_of_the_used_signals()
    ensures ascending { (count : ℕ) (f : Formula) → IsStrictlyIncreasing (used_places count f) }
    ensures below { (count : ℕ) (f : Formula) → All (λ place. place < count) (used_places count f) }
    ensures exactly { (count : ℕ) (f : Formula) (place : ℕ) →
        Contains (used_places count f) place ↔ ((place < count) × IsTrue (formula_uses place f)) }
    ensures enough { (count : ℕ) (f : Formula) → ((place : ℕ) → IsTrue (formula_uses place f) → place < count) →
        UsesOnly (used_places count f) (λ place. formula_uses place f) }
    ensures valid { (widths : List ℕ) (e : Expr) (place : ℕ) →
        IsValid widths e → IsTrue (expr_uses place e) → place < length widths }
{}

/// Values that fit their widths do so at the chosen places too.
pub fn chosen_values_fit()
    ensures { (places widths values : List ℕ) →
        FitWidths widths values → FitWidths (chosen places widths) (chosen places values) }
{}

/// An expression over the places of the signals that it uses has the width and the value that it had, and is as valid
/// and as deep.
pub fn an_expression_over_its_signals_is_the_same()
    ensures width { (places widths : List ℕ) (e : Expr) → UsesOnly places (λ signal. expr_uses signal e) →
        width_of (chosen places widths) (over_expr places e) ≡ width_of widths e }
    ensures value { (places widths values : List ℕ) (context : ℕ) (e : Expr) →
        UsesOnly places (λ signal. expr_uses signal e) →
        value_of (chosen places widths) (chosen places values) context (over_expr places e)
        ≡ value_of widths values context e }
    ensures valid { (places widths : List ℕ) (e : Expr) → UsesOnly places (λ signal. expr_uses signal e) →
        IsValid widths e → IsValid (chosen places widths) (over_expr places e) }
    ensures parentheses { (places : List ℕ) (e : Expr) → parentheses (over_expr places e) ≡ parentheses e }
{}

/// A sequence over the places of the signals that it uses is tightly satisfied by the lists over these signals.
pub fn a_sequence_over_its_signals_is_the_same()
    ensures { (places widths : List ℕ) (r : Sere) (w : List Letter) →
        UsesOnly places (λ signal. sere_uses signal r) →
        Tight widths (core_of r) w
        ↔ Tight (chosen places widths) (core_of (over_sere places r)) (map (chosen_letter places) w) }
{}

/// A formula over the places of the signals that it uses is satisfied by the words over these signals.
pub fn a_formula_over_its_signals_is_the_same()
    ensures { (places widths : List ℕ) (f : Formula) (w : Word) →
        UsesOnly places (λ signal. formula_uses signal f) →
        Satisfies widths (core_formula_of f) w
        ↔ Satisfies (chosen places widths) (core_formula_of (over places f)) (chosen_word places w) }
{}

/// A formula over the places of the signals that it uses is violated by the traces of these signals.
pub fn a_formula_over_its_signals_is_violated_alike()
    ensures weakly { (places widths : List ℕ) (f : Formula) (trace : List Valuation) →
        UsesOnly places (λ signal. formula_uses signal f) →
        WeaklyViolates widths f trace
        ↔ WeaklyViolates (chosen places widths) (over places f) (map (chosen places) trace) }
    ensures whole { (places widths : List ℕ) (f : Formula) (trace : List Valuation) →
        UsesOnly places (λ signal. formula_uses signal f) →
        Violates widths f trace
        ↔ Violates (chosen places widths) (over places f) (map (chosen places) trace) }
{}
