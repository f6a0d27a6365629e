//! Examples of what satisfies and violates what. The functions do nothing: each contract is the example.

ghost use Rattle.std.specs.Prelude.{List, [], ◌∷◌, map};
ghost use Rattle.psl_model.specs.Expr.{Expr};
ghost use Rattle.psl_meaning.specs.Word.{Valuation, valuation, top, bottom};
ghost use Rattle.psl_meaning.specs.Sequence.{bool, Holds, Tight};
ghost use Rattle.psl_meaning.specs.SequenceSugar.{always_true, core_of};
ghost use Rattle.psl_meaning.specs.Violation.{WeaklyViolates, Violates};
ghost use Rattle.psl_meaning.specs.Examples.{widths, always_false, always_a, a_then_false, a_until_b, strong_next_b};
ghost use Rattle.psl_meaning.specs.Examples.{weak_next_b, abort_outside, abort_inside, second_a, one_a_then_b};
ghost use Rattle.psl_meaning.specs.Examples.{trace_of_a, trace_of_both};

/// Top satisfies each Boolean, and so a list of one top tightly satisfies each, `false` included.
pub fn a_top_satisfies_false()
    ensures letter { (e : Expr) → Holds widths e top }
    ensures list { Tight widths (bool always_false) (top ∷ []) }
{}

/// Bottom satisfies no Boolean, `true` included.
pub fn no_bottom_satisfies_true()
    ensures letter { (e : Expr) → ¬ Holds widths e bottom }
    ensures list { ¬ Tight widths (bool always_true) (bottom ∷ []) }
{}

/// `always a` is violated from the first 0 of `a` on.
pub fn always_a_needs_each_a()
    ensures by_a_zero { WeaklyViolates widths always_a (trace_of_a (1 ∷ 1 ∷ 0 ∷ [])) }
    ensures not_before { ¬ WeaklyViolates widths always_a (trace_of_a (1 ∷ 1 ∷ [])) }
{}

/// `{a;false}` as a formula is violated by the second letter, not by a first one with `a`: there a top could follow.
pub fn an_impossible_end_is_reported_where_it_comes()
    ensures not_before { ¬ WeaklyViolates widths a_then_false (trace_of_a (1 ∷ [])) }
    ensures at_the_end { WeaklyViolates widths a_then_false (trace_of_a (1 ∷ 0 ∷ [])) }
{}

/// `a until! b` with no `b` yet: violated by the word that ends, and not for good.
pub fn a_strong_until_pends()
    ensures at_the_end { Violates widths a_until_b (trace_of_both (1 ∷ 1 ∷ []) (0 ∷ 0 ∷ [])) }
    ensures not_yet { ¬ WeaklyViolates widths a_until_b (trace_of_both (1 ∷ 1 ∷ []) (0 ∷ 0 ∷ [])) }
{}

/// On any one letter `next! b` is violated by the word that ends, and not for good.
pub fn a_strong_next_pends()
    ensures at_the_end { (values : Valuation) → Violates widths strong_next_b (values ∷ []) }
    ensures not_yet { (values : Valuation) → ¬ WeaklyViolates widths strong_next_b (values ∷ []) }
{}

/// On any one letter `next b` is violated neither way.
pub fn a_weak_next_does_not_pend()
    ensures at_the_end { (values : Valuation) → ¬ Violates widths weak_next_b (values ∷ []) }
    ensures not_yet { (values : Valuation) → ¬ WeaklyViolates widths weak_next_b (values ∷ []) }
{}

/// An abort drops the whole obligation: `(always a) abort r` isn't violated by what comes with `r` or after it.
pub fn an_abort_outside_ends_the_obligation()
    ensures { ¬ WeaklyViolates widths abort_outside (trace_of_both (1 ∷ 0 ∷ 0 ∷ []) (0 ∷ 1 ∷ 0 ∷ [])) }
{}

/// In `always (a abort r)` each cycle has its own abort.
pub fn an_abort_inside_ends_one_cycle()
    ensures by_three { WeaklyViolates widths abort_inside (trace_of_both (1 ∷ 0 ∷ 0 ∷ []) (0 ∷ 1 ∷ 0 ∷ [])) }
    ensures not_by_two { ¬ WeaklyViolates widths abort_inside (trace_of_both (1 ∷ 0 ∷ []) (0 ∷ 1 ∷ [])) }
{}

/// `a[->2]` is a list whose last letter is its second with `a`.
pub fn a_goto_ends_at_its_last_count()
    ensures of_the_second { Tight widths (core_of second_a) (map valuation (trace_of_a (0 ∷ 1 ∷ 0 ∷ 1 ∷ []))) }
    ensures not_of_the_first { ¬ Tight widths (core_of second_a) (map valuation (trace_of_a (0 ∷ 1 ∷ []))) }
    ensures not_after_it { ¬ Tight widths (core_of second_a) (map valuation (trace_of_a (1 ∷ 1 ∷ 0 ∷ []))) }
{}

/// `a[=1];b` is a list with one `a` and then a `b`, where letters without `a` may stand between; not one with two.
pub fn an_equal_count_goes_on_to_the_next()
    ensures of_one { Tight widths (core_of one_a_then_b)
        (map valuation (trace_of_both (0 ∷ 1 ∷ 0 ∷ 0 ∷ []) (0 ∷ 0 ∷ 0 ∷ 1 ∷ []))) }
    ensures not_of_two { ¬ Tight widths (core_of one_a_then_b)
        (map valuation (trace_of_both (1 ∷ 1 ∷ 0 ∷ []) (0 ∷ 0 ∷ 1 ∷ []))) }
{}
