//! Laws of counted sequences and of place graphs. The functions do nothing: each contract is the law.

ghost use Rattle.std.specs.Prelude.{◌≡◌, ◌≢◌, ◌↔◌, ℕ, List, Contains, length};
ghost use Rattle.psl_model.specs.Expr.{Expr};
ghost use Rattle.psl_model.specs.Sere.{Sere};
ghost use Rattle.psl_meaning.specs.Word.{Letter};
ghost use Rattle.psl_meaning.specs.Sequence.{CoreSere, Tight};
ghost use Rattle.psl_meaning.specs.SequenceSugar as sugar;
ghost use Rattle.psl_rewrite.specs.Meaning.{meant_core};
ghost use Rattle.sequence_cores.specs.Places.{places_of};
ghost use Rattle.sequence_cores.specs.Counted.{counted_as};
ghost use Rattle.sequence_cores.specs.PlaceGraph.{Place, places_in, start_of, Reads};

use psl_meaning::laws::a_repetition_is_a_number_of_copies;

/// A sequence and the core sequence as which it is counted are tightly satisfied by the same lists of letters.
pub fn a_counted_sequence_has_the_same_words()
    ensures { (widths : List ℕ) (r : Sere) (w : List Letter) →
        Tight widths (meant_core (counted_as r)) w ↔ Tight widths (sugar.core_of r) w }
{
    a_repetition_is_a_number_of_copies();
}

/// The place graph of the core sequence as which a sequence is counted has the number of places that is told of the
/// sequence.
pub fn a_counted_sequence_has_as_many_places()
    ensures { (r : Sere) → length (places_in (meant_core (counted_as r))) ≡ places_of r }
{}
