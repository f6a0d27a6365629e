//! What it means that a module checks a formula. The functions do nothing: each contract is a law.
#![tactic(auto)]

ghost use Rattle.std.specs.Prelude.{◌≡◌, ℕ, List, [], ◌∷◌, length, map};
ghost use Rattle.psl_model.specs.declared.names.Signal.{Signal};
ghost use Rattle.psl_model.specs.Expr.{whole};
ghost use Rattle.psl_model.specs.Formula.{bool, always};
ghost use Rattle.psl_meaning.specs.Word.{Valuation};
ghost use Rattle.verilog_text.specs.Run.{Cycle, IsRunFromReset};
ghost use Rattle.checker_meaning.specs.Checks.{Checks, values_at};
ghost use Rattle.checker_meaning.specs.NegationChecker.{negation_checker};

use psl_meaning::laws::{always_is_violated, always_is_weakly_violated};

/// The checker whose output is the negation of a signal checks that the signal is never 0.
pub fn negation_checks_always()
    ensures { (name : List ℕ) (port : Signal) →
        Checks (port.width ∷ []) (0 ∷ []) (negation_checker name port) (always (bool (whole 0))) }
{
    always_is_weakly_violated();
    always_is_violated();
}

/// The checker has a run from reset over each trace, and for any values of `mbac_eot`, so the law above speaks of
/// something.
pub fn negation_checker_runs()
    ensures { (name : List ℕ) (port : Signal) (trace : List Valuation) (eots : List ℕ) → length eots ≡ length trace →
        (reset : Cycle) × (cycles : List Cycle) ×
        IsRunFromReset (negation_checker name port) (map (values_at (0 ∷ [])) trace) eots reset cycles }
{}
