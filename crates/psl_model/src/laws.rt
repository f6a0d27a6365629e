//! Laws of the trees. The functions do nothing: each contract is the law.

ghost use Rattle.std.specs.Prelude.{◌≡◌, ◌↔◌, ◌<◌, ◌≤◌, ◌+◌, ◌^◌, ℕ, List, All, IsTrue, length, slice_index};
ghost use Rattle.psl_model.specs.Expr as tree;
ghost use Rattle.psl_model.specs.Limits.{vector_limit};
ghost use Rattle.psl_model.specs.Moved.{moved, Carries};
ghost use Rattle.psl_model.specs.Valid.{IsValid, parentheses};
ghost use Rattle.psl_model.specs.Value.{width_of, value_of, FitWidths};
ghost use Rattle.psl_model.specs.View.{expr_of, sere_of};
ghost use Rattle.psl_model.specs.declared.expressions.Expr.{Expr};
ghost use Rattle.psl_model.specs.declared.sequences.Sere.{Sere};

use crate::expressions::Expr;
use crate::sequences::Sere;

/// `==` on expressions, which a map by expressions asks, is equality of their trees; so such a map is one by plain
/// trees. An expression is one with its tree.
pub fn equal_expressions_have_one_tree()
    ensures equal { (a b : Expr) → IsTrue (⟦<Expr as PartialEq>⟧.eq a b) ↔ (expr_of a ≡ expr_of b) }
    ensures one { (a b : Expr) → expr_of a ≡ expr_of b → a ≡ b }
{}

/// The same of sequences.
pub fn equal_sequences_have_one_tree()
    ensures equal { (a b : Sere) → IsTrue (⟦<Sere as PartialEq>⟧.eq a b) ↔ (sere_of a ≡ sere_of b) }
    ensures one { (a b : Sere) → sere_of a ≡ sere_of b → a ≡ b }
{}

/// An expression that moves with its signals has the width and the value that it had, and is as valid and as deep.
pub fn a_moved_expression_is_the_same()
    ensures width { (by : ℕ) (old new : List ℕ) (e : tree.Expr) →
        Carries by (length old) old new → IsValid old e → width_of new (moved by e) ≡ width_of old e }
    ensures value { (by : ℕ) (old new old_values new_values : List ℕ) (context : ℕ) (e : tree.Expr) →
        Carries by (length old) old new → Carries by (length old) old_values new_values → IsValid old e →
        value_of new new_values context (moved by e) ≡ value_of old old_values context e }
    ensures valid { (by : ℕ) (old new : List ℕ) (e : tree.Expr) →
        Carries by (length old) old new → by + length old ≤ length new → IsValid old e → IsValid new (moved by e) }
    ensures parentheses { (by : ℕ) (e : tree.Expr) → parentheses (moved by e) ≡ parentheses e }
{}

/// An expression takes nothing of a table but the signals that it is valid for.
pub fn an_expression_reads_its_own_signals()
    ensures width { (old new : List ℕ) (e : tree.Expr) →
        ((signal : ℕ) → signal < length old → slice_index new signal ≡ slice_index old signal) →
        IsValid old e → width_of new e ≡ width_of old e }
    ensures value { (old new old_values new_values : List ℕ) (context : ℕ) (e : tree.Expr) →
        ((signal : ℕ) → signal < length old → slice_index new signal ≡ slice_index old signal) →
        ((signal : ℕ) → signal < length old → slice_index new_values signal ≡ slice_index old_values signal) →
        IsValid old e → value_of new new_values context e ≡ value_of old old_values context e }
    ensures valid { (old new : List ℕ) (e : tree.Expr) →
        ((signal : ℕ) → signal < length old → slice_index new signal ≡ slice_index old signal) →
        length old ≤ length new → IsValid old e → IsValid new e }
{}

/// A valid expression over vectors has at most a vector's width, and its value fits its context.
#[tactic(auto, using(crate::proofs::Contexts::narrow, crate::proofs::Fits::value_fits))]
pub fn a_value_fits_its_context()
    ensures narrow { (widths : List ℕ) (e : tree.Expr) → All (λ w. w ≤ vector_limit) widths → IsValid widths e →
        width_of widths e ≤ vector_limit }
    ensures fits { (widths values : List ℕ) (context : ℕ) (e : tree.Expr) → FitWidths widths values →
        IsValid widths e → width_of widths e ≤ context → value_of widths values context e < 2 ^ context }
{}
