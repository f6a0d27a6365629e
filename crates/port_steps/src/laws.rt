//! Laws of sequences over the signals at some places. The functions do nothing: each contract is the law.

ghost use Rattle.std.specs.Prelude.{◌≡◌, ◌↔◌, ℕ, List};
ghost use Rattle.psl_model.specs.Sere.{Sere};
ghost use Rattle.psl_model.specs.Uses.{sere_uses};
ghost use Rattle.psl_rewrite.specs.Meaning.{meant_core};
ghost use Rattle.sequence_cores.specs.Counted.{counted_as};
ghost use Rattle.sequence_cores.specs.Places.{places_of};
ghost use Rattle.sequence_tables.specs.Steps as core;
ghost use Rattle.port_formulas.specs.Chosen.{UsesOnly};
ghost use Rattle.port_formulas.specs.Over.{over_sere};

use sequence_tables::laws::a_renamed_sequence_has_as_many_steps;

/// A sequence over the places of the signals that it uses has the places and the steps that it had.
pub fn a_sequence_over_its_signals_counts_the_same()
    ensures places { (all : List ℕ) (r : Sere) → places_of (over_sere all r) ≡ places_of r }
    ensures steps { (all : List ℕ) (r : Sere) (k : ℕ) → UsesOnly all (λ signal. sere_uses signal r) →
        core.HasSteps (meant_core (counted_as r)) k ↔ core.HasSteps (meant_core (counted_as (over_sere all r))) k }
{
    a_renamed_sequence_has_as_many_steps();
}
