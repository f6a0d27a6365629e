//! Laws of the steps of sequences. The functions do nothing: each contract is the law.

ghost use Rattle.std.specs.Prelude.{◌≡◌, ◌↔◌, ℕ};
ghost use Rattle.psl_model.specs.Expr.{Expr};
ghost use Rattle.psl_meaning.specs.Sequence.{CoreSere};
ghost use Rattle.sequence_tables.specs.Renamed.{renamed, KeepsLiterals, TellsApart};
ghost use Rattle.sequence_tables.specs.Steps.{HasSteps};

/// A sequence has one number of steps.
pub fn a_sequence_has_one_number_of_steps()
    ensures { (r : CoreSere) (k l : ℕ) → HasSteps r k → HasSteps r l → k ≡ l }
{}

/// A sequence whose Booleans are named anew has as many steps, if different ones get different names, the leading `!`
/// are kept, and `1'd1` is what it was.
pub fn a_renamed_sequence_has_as_many_steps()
    ensures { (f : Expr → Expr) (r : CoreSere) (k : ℕ) →
        KeepsLiterals f → TellsApart f r → HasSteps r k ↔ HasSteps (renamed f r) k }
{}
