//! What core sequences and base formulas mean, and the laws of base forms. The functions do nothing: each contract is
//! the law.

ghost use Rattle.std.specs.Prelude.{◌≡◌, ◌≢◌, ◌↔◌, ◌+◌, ℕ, List, [], Bool};
ghost use Rattle.psl_model.specs.Expr.{Expr};
ghost use Rattle.psl_model.specs.Sere.{Sere};
ghost use Rattle.psl_model.specs.Formula.{Formula};
ghost use Rattle.simple_subset.specs.Subset.{InSubset};
ghost use Rattle.psl_meaning.specs.Word.{Valuation, Letter, with_tops};
ghost use Rattle.psl_meaning.specs.Violation.{WeaklyViolates, Violates};
ghost use Rattle.psl_meaning.specs.Sequence.{Tight, Copies};
ghost use Rattle.psl_meaning.specs.SequenceSugar as sugar;
ghost use Rattle.psl_meaning.specs.Formula.{Satisfies};
ghost use Rattle.psl_meaning.specs.Formula as psl;
ghost use Rattle.psl_meaning.specs.FormulaSugar as formula;
ghost use Rattle.psl_rewrite.specs.CoreSere.{CoreSere, power};
ghost use Rattle.psl_rewrite.specs.Base as base;
ghost use Rattle.psl_rewrite.specs.Base.{Base};
ghost use Rattle.psl_rewrite.specs.Meaning.{meant_core, named};
ghost use Rattle.psl_rewrite.specs.BaseForm.{base_form_of};
ghost use Rattle.psl_rewrite.specs.SameMeaning.{MeanTheSame};
ghost use Rattle.psl_rewrite.specs.Obligations.{EachObligation, CanHappen, IsContradictory};
ghost use Rattle.psl_rewrite.specs.Conditions.{IsAllowed, FormulaHas, BaseHas, FormulaCounts, BaseCounts};
ghost use Rattle.psl_rewrite.specs.Conditions.{formula_sequences, base_sequences};

use crate::violations;
use psl_meaning::laws::{
    a_repetition_is_a_number_of_copies, bar_of_bar_is_the_word, letters_keep_their_places,
    tops_follow_the_trace,
};

/// A power is so many lists of its body, one after the other.
pub fn a_power_is_so_many_copies()
    ensures { (widths : List ℕ) (r : CoreSere) (k : ℕ) (w : List Letter) →
        Tight widths (meant_core (power r k)) w ↔ Copies (Tight widths (meant_core r)) k w }
{
    a_repetition_is_a_number_of_copies();
}

/// What each base formula means in the forms that satisfaction is told for.
pub fn a_base_formula_means_what_it_names()
    ensures next { (s : Bool) (k : ℕ) (f : Base) →
        formula.core_formula_of (named (base.next s k f)) ≡ formula.next_times s k (formula.core_formula_of (named f)) }
    ensures until { (s : Bool) (f : Base) (e : Expr) →
        formula.core_formula_of (named (base.until s f e))
        ≡ formula.until_by s (formula.core_formula_of (named f)) (psl.bool e) }
    ensures eventually { (r : Sere) →
        formula.core_formula_of (named (base.eventually r)) ≡ formula.somewhere (psl.strong (sugar.core_of r)) }
    ensures suffix { (r : Sere) (f : Base) →
        formula.core_formula_of (named (base.suffix r f))
        ≡ psl.suffix (sugar.core_of r) (formula.core_formula_of (named f)) }
{}

/// The base form of a formula of the simple subset is satisfied by the same words of valuations and tops.
pub fn a_base_form_keeps_the_meaning()
    ensures { (f : Formula) → InSubset f → MeanTheSame (named (base_form_of f)) f }
{
    bar_of_bar_is_the_word();
    letters_keep_their_places();
    tops_follow_the_trace();
}

/// What a base form takes over from its formula. Its expressions are valid for the same signals, with at most 3 more
/// open parentheses; its counts and ranges are ones that a unit may have; and it has the same sequences in the same
/// order.
pub fn a_base_form_keeps_the_conditions()
    ensures expressions { (f : Formula) (widths : List ℕ) (limit : ℕ) →
        FormulaHas (IsAllowed widths limit) f → BaseHas (IsAllowed widths (limit + 3)) (base_form_of f) }
    ensures counts { (f : Formula) → FormulaCounts f → BaseCounts (base_form_of f) }
    ensures sequences { (f : Formula) → InSubset f → base_sequences (base_form_of f) ≡ formula_sequences f }
{}

/// The formula that a base formula means is in the simple subset, whatever the base formula.
pub fn a_base_formula_is_in_the_subset()
    ensures { (f : Base) → InSubset (named f) }
{}

/// The base form of a formula of the simple subset has a contradictory obligation exactly if the formula has one.
pub fn a_base_form_keeps_the_obligations()
    ensures { (widths : List ℕ) (f : Formula) → InSubset f →
        EachObligation (λ r. ¬ IsContradictory widths r) (named (base_form_of f))
        ↔ EachObligation (λ r. ¬ IsContradictory widths r) f }
{}

/// Tops for ever satisfy each formula of the simple subset whose obligations can happen, and don't violate one that has
/// no contradictory obligation.
pub fn tops_for_ever_satisfy()
    ensures satisfied { (widths : List ℕ) (f : Formula) → InSubset f → EachObligation (CanHappen widths) f →
        Satisfies widths (formula.core_formula_of f) (with_tops []) }
    ensures not_violated { (widths : List ℕ) (f : Formula) → InSubset f →
        EachObligation (λ r. ¬ IsContradictory widths r) f → ¬ WeaklyViolates widths f [] }
{
    a_base_form_keeps_the_meaning();
    tops_follow_the_trace();
    violations::tops_for_ever_satisfy();
}

/// What a list that isn't empty violates already, it violates as a word that ends: where the formula is in the simple
/// subset and has no contradictory obligation.
pub fn a_weak_violation_is_a_violation()
    ensures { (widths : List ℕ) (f : Formula) (trace : List Valuation) → InSubset f →
        EachObligation (λ r. ¬ IsContradictory widths r) f → trace ≢ [] →
        WeaklyViolates widths f trace → Violates widths f trace }
{
    a_base_form_keeps_the_meaning();
    tops_follow_the_trace();
    violations::a_weak_violation_is_a_violation();
}
