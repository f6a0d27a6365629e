//! Laws of what violates base formulas. The functions do nothing: each contract is the law.

ghost use Rattle.std.specs.Prelude.{◌≡◌, ◌≢◌, ◌↔◌, ℕ, List, [], ◌∷◌};
ghost use Rattle.psl_model.specs.Expr.{Expr};
ghost use Rattle.psl_model.specs.Value.{own_value};
ghost use Rattle.psl_meaning.specs.Word.{Valuation, with_tops};
ghost use Rattle.psl_meaning.specs.Formula.{Satisfies};
ghost use Rattle.psl_meaning.specs.FormulaSugar.{core_formula_of};
ghost use Rattle.psl_meaning.specs.Violation.{WeaklyViolates, Violates};
ghost use Rattle.psl_rewrite.specs.Base as base;
ghost use Rattle.psl_rewrite.specs.Base.{Base};
ghost use Rattle.psl_rewrite.specs.Meaning.{named};
ghost use Rattle.psl_rewrite.specs.Obligations.{EachObligation, CanHappen, IsContradictory};

use psl_meaning::laws::{
    bar_of_bar_is_the_word, everywhere_is_each_place, letters_alone_decide, tops_follow_the_trace,
};

/// Tops for ever satisfy each base formula whose obligations can happen, and don't violate one that has no
/// contradictory obligation.
pub fn tops_for_ever_satisfy()
    ensures satisfied { (widths : List ℕ) (f : Base) → EachObligation (CanHappen widths) (named f) →
        Satisfies widths (core_formula_of (named f)) (with_tops []) }
    ensures not_violated { (widths : List ℕ) (f : Base) →
        EachObligation (λ r. ¬ IsContradictory widths r) (named f) → ¬ WeaklyViolates widths (named f) [] }
{
    bar_of_bar_is_the_word();
    tops_follow_the_trace();
    everywhere_is_each_place();
    letters_alone_decide();
}

/// What a list that isn't empty violates already, it violates as a word that ends: where the base formula has no
/// contradictory obligation.
pub fn a_weak_violation_is_a_violation()
    ensures { (widths : List ℕ) (f : Base) (trace : List Valuation) →
        EachObligation (λ r. ¬ IsContradictory widths r) (named f) → trace ≢ [] →
        WeaklyViolates widths (named f) trace → Violates widths (named f) trace }
{
    bar_of_bar_is_the_word();
    tops_follow_the_trace();
    everywhere_is_each_place();
    letters_alone_decide();
}

/// A list violates a Boolean exactly if its first valuation gives it the value 0.
pub fn a_boolean_is_judged_by_the_first_letter()
    ensures so_far { (widths : List ℕ) (e : Expr) (values : Valuation) (rest : List Valuation) →
        WeaklyViolates widths (named (base.bool e)) (values ∷ rest) ↔ (own_value widths values e ≡ 0) }
    ensures whole { (widths : List ℕ) (e : Expr) (values : Valuation) (rest : List Valuation) →
        Violates widths (named (base.bool e)) (values ∷ rest) ↔ (own_value widths values e ≡ 0) }
{}

/// A list violates `f && g` exactly if it violates one of the two. It is told for lists that don't, since which of the
/// two it is need not be known.
pub fn a_conjunction_is_violated_by_a_side()
    ensures so_far { (widths : List ℕ) (f g : Base) (trace : List Valuation) →
        ¬ WeaklyViolates widths (named (base.and f g)) trace
        ↔ (¬ WeaklyViolates widths (named f) trace × ¬ WeaklyViolates widths (named g) trace) }
    ensures whole { (widths : List ℕ) (f g : Base) (trace : List Valuation) →
        ¬ Violates widths (named (base.and f g)) trace
        ↔ (¬ Violates widths (named f) trace × ¬ Violates widths (named g) trace) }
{}

/// A list violates `b || f` exactly if its first valuation gives `b` the value 0 and it violates `f`.
pub fn an_alternative_is_violated_where_its_test_fails()
    ensures so_far { (widths : List ℕ) (e : Expr) (f : Base) (values : Valuation) (rest : List Valuation) →
        WeaklyViolates widths (named (base.or_bool e f)) (values ∷ rest)
        ↔ ((own_value widths values e ≡ 0) × WeaklyViolates widths (named f) (values ∷ rest)) }
    ensures whole { (widths : List ℕ) (e : Expr) (f : Base) (values : Valuation) (rest : List Valuation) →
        Violates widths (named (base.or_bool e f)) (values ∷ rest)
        ↔ ((own_value widths values e ≡ 0) × Violates widths (named f) (values ∷ rest)) }
{
    bar_of_bar_is_the_word();
}

/// A list violates `b -> f` exactly if its first valuation gives `b` another value than 0 and it violates `f`.
pub fn an_implication_is_violated_where_its_test_holds()
    ensures so_far { (widths : List ℕ) (e : Expr) (f : Base) (values : Valuation) (rest : List Valuation) →
        WeaklyViolates widths (named (base.implies e f)) (values ∷ rest)
        ↔ ((own_value widths values e ≢ 0) × WeaklyViolates widths (named f) (values ∷ rest)) }
    ensures whole { (widths : List ℕ) (e : Expr) (f : Base) (values : Valuation) (rest : List Valuation) →
        Violates widths (named (base.implies e f)) (values ∷ rest)
        ↔ ((own_value widths values e ≢ 0) × Violates widths (named f) (values ∷ rest)) }
{
    bar_of_bar_is_the_word();
}
