//! Laws of what violates formulas over later cycles, told by lists of valuations alone. The functions do nothing: each
//! contract is the law.
#![tactic(auto)]

ghost use Rattle.std.specs.Prelude.{◌≡◌, ◌≢◌, ◌↔◌, ◌<◌, ◌≤◌, ℕ, suc, List, [], Bool, false, IsTrue, All, drop, length};
ghost use Rattle.std.specs.Prelude.{map, take};
ghost use Rattle.psl_model.specs.Expr.{Expr};
ghost use Rattle.psl_model.specs.Value.{own_value};
ghost use Rattle.psl_model.specs.Formula.{Formula, bool, next, suffix, until};
ghost use Rattle.psl_model.specs.Sere.{Sere};
ghost use Rattle.psl_model.specs.declared.formulas.Reach.TheVariants as reach;
ghost use Rattle.psl_meaning.specs.Sequence.{Tight};
ghost use Rattle.psl_meaning.specs.SequenceSugar.{core_of};
ghost use Rattle.psl_meaning.specs.Word.{Valuation, valuation};
ghost use Rattle.psl_meaning.specs.Violation.{WeaklyViolates, Violates};

use psl_meaning::laws::{bar_of_bar_is_the_word, everywhere_is_each_place};

/// A list leaves `next[k] f` open exactly if what is left of it from place k on leaves `f` open, and `next_a[low:high]
/// f` exactly if that is so of each k of the range. It is the same for the strong forms: what the list hasn't come to
/// may still come.
pub fn next_is_its_body_later_so_far()
    ensures one { (widths : List ℕ) (s : Bool) (k high : ℕ) (f : Formula) (trace : List Valuation) →
        ¬ WeaklyViolates widths (next s reach.One k high f) trace ↔ ¬ WeaklyViolates widths f (drop k trace) }
    ensures all { (widths : List ℕ) (s : Bool) (low high : ℕ) (f : Formula) (trace : List Valuation) → low ≤ high →
        ¬ WeaklyViolates widths (next s reach.All low high f) trace
        ↔ ((k : ℕ) → low ≤ k → k ≤ high → ¬ WeaklyViolates widths f (drop k trace)) }
{
    bar_of_bar_is_the_word();
}

/// As a word that ends, a list that isn't empty does not violate `next[k] f` exactly if what is left of it from place
/// k on does not violate `f`, where the list has such a place. The strong form asks for that place too. Of
/// `next_a[low:high] f` each k of the range is asked that.
pub fn next_is_its_body_later()
    ensures one { (widths : List ℕ) (s : Bool) (k high : ℕ) (f : Formula) (trace : List Valuation) → trace ≢ [] →
        ¬ Violates widths (next s reach.One k high f) trace
        ↔ ((IsTrue s → k < length trace) × (k < length trace → ¬ Violates widths f (drop k trace))) }
    ensures all { (widths : List ℕ) (s : Bool) (low high : ℕ) (f : Formula) (trace : List Valuation) → low ≤ high →
        trace ≢ [] → ¬ Violates widths (next s reach.All low high f) trace
        ↔ ((IsTrue s → high < length trace)
        × ((k : ℕ) → low ≤ k → k ≤ high → k < length trace → ¬ Violates widths f (drop k trace))) }
{
    bar_of_bar_is_the_word();
}

/// A list leaves `f until b` open exactly if what is left of it leaves `f` open from each place on up to which, this
/// place included, `b` has the value 0. It is the same for `until!`: a `b` may still come.
pub fn until_is_its_body_before_the_stop_so_far()
    ensures { (widths : List ℕ) (s : Bool) (f : Formula) (e : Expr) (trace : List Valuation) →
        ¬ WeaklyViolates widths (until s false f (bool e)) trace
        ↔ ((k : ℕ) → k < length trace → All (λ values. own_value widths values e ≡ 0) (take (suc k) trace) →
        ¬ WeaklyViolates widths f (drop k trace)) }
{
    bar_of_bar_is_the_word();
    everywhere_is_each_place();
}

/// As a word that ends, a list does not violate `f until b` exactly if what is left of it does not violate `f` from
/// each place on up to which, this place included, `b` has the value 0. `until!` asks too that `b` has another value
/// somewhere.
pub fn until_is_its_body_before_the_stop()
    ensures { (widths : List ℕ) (s : Bool) (f : Formula) (e : Expr) (trace : List Valuation) →
        ¬ Violates widths (until s false f (bool e)) trace
        ↔ (((k : ℕ) → k < length trace → All (λ values. own_value widths values e ≡ 0) (take (suc k) trace) →
        ¬ Violates widths f (drop k trace))
        × (IsTrue s → ¬ All (λ values. own_value widths values e ≡ 0) trace)) }
{
    bar_of_bar_is_the_word();
    everywhere_is_each_place();
}

/// A list leaves `r |-> f` open exactly if what is left of it leaves `f` open from each place at which a prefix that
/// satisfies the sequence ends. What follows the list may end further prefixes, so `f` must be open at its end too.
pub fn suffix_is_its_body_after_each_match_so_far()
    ensures { (widths : List ℕ) (r : Sere) (f : Formula) (trace : List Valuation) → ¬ WeaklyViolates widths f [] →
        ¬ WeaklyViolates widths (suffix r false f) trace
        ↔ ((k : ℕ) → k < length trace → Tight widths (core_of r) (map valuation (take (suc k) trace)) →
        ¬ WeaklyViolates widths f (drop k trace)) }
{}

/// As a word that ends, a list does not violate `r |-> f` exactly if what is left of it does not violate `f` from each
/// place at which a prefix that satisfies the sequence ends.
pub fn suffix_is_its_body_after_each_match()
    ensures { (widths : List ℕ) (r : Sere) (f : Formula) (trace : List Valuation) →
        ¬ Violates widths (suffix r false f) trace
        ↔ ((k : ℕ) → k < length trace → Tight widths (core_of r) (map valuation (take (suc k) trace)) →
        ¬ Violates widths f (drop k trace)) }
{}
