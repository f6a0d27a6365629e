//! Laws of the machines. The functions do nothing: each contract is the law.

ghost use Rattle.std.specs.Prelude.{◌≡◌, ◌≢◌, ◌↔◌, ◌⊎◌, ◌+◌, ◌≤◌, List, [], ◌∷◌, ◌++◌, length};
ghost use Rattle.auto_core.specs.declared.labels.Literal.{Literal};
ghost use Rattle.auto_core.specs.Machine.{Machine, Letter, Passes, Accepts};
ghost use Rattle.auto_core.specs.Splits.{IsConcatenation, IsRepetition};
ghost use Rattle.automata_product.specs.declared.side.Side.TheVariants as side;
ghost use Rattle.sere_automata.specs.declared.states.Choice.TheVariants as choice;
ghost use Rattle.sere_automata.specs.declared.states.LeafState.{LeafState};
ghost use Rattle.sere_automata.specs.declared.states.Round.TheVariants as round;
ghost use Rattle.sere_automata.specs.Concat.{concat_machine};
ghost use Rattle.sere_automata.specs.Empty.{empty_machine};
ghost use Rattle.sere_automata.specs.Leaf.{leaf_machine};
ghost use Rattle.sere_automata.specs.OneOf.{one_of_machine};
ghost use Rattle.sere_automata.specs.Repeat.{repeat_machine};

use crate::states::{Choice, Round};
use auto_core::laws;
use automata_product::Side;

/// No letter: the empty list alone.
pub fn the_empty_machine_accepts_no_letter()
    ensures { (w : List Letter) → Accepts empty_machine w ↔ (w ≡ []) }
{}

/// One step: the lists of one letter that passes its label. No state has more than that edge.
pub fn one_step_accepts_one_letter_that_passes()
    ensures words { (label : List Literal) (w : List Letter) →
        Accepts (leaf_machine label) w ↔ ((a : Letter) × (w ≡ a ∷ []) × Passes label a) }
    ensures edges { (label : List Literal) (s : LeafState) → length ((leaf_machine label).edges s) ≤ 1 }
{}

/// One machine after another: their lists one after the other. A state of the first has its edges, and the first
/// edges of the other if it accepts.
pub fn the_concatenation_accepts_one_list_after_the_other<S, T>()
    ensures words { (m : Machine S) (n : Machine T) (w : List Letter) →
        Accepts (concat_machine m n) w ↔ IsConcatenation (Accepts m) (Accepts n) w }
    ensures left { (m : Machine S) (n : Machine T) (p : S) →
        length ((concat_machine m n).edges (side.Left p)) ≤ length (m.edges p) + length (n.edges n.start) }
    ensures right { (m : Machine S) (n : Machine T) (q : T) →
        length ((concat_machine m n).edges (side.Right q)) ≡ length (n.edges q) }
{
    laws::renamed_lists_have_the_renamed_edges::<S, Side<S, T>>();
    laws::renamed_lists_have_the_renamed_edges::<T, Side<S, T>>();
    laws::a_copy_of_a_machine_accepts_the_same::<T, Side<S, T>>();
}

/// One of two machines: the lists of either. The new start has the first edges of both, each other state its own.
pub fn the_choice_accepts_what_either_accepts<S, T>()
    ensures words { (m : Machine S) (n : Machine T) (w : List Letter) →
        Accepts (one_of_machine m n) w ↔ (Accepts m w ⊎ Accepts n w) }
    ensures new { (m : Machine S) (n : Machine T) →
        length ((one_of_machine m n).edges choice.New) ≡ length (m.edges m.start) + length (n.edges n.start) }
    ensures left { (m : Machine S) (n : Machine T) (p : S) →
        length ((one_of_machine m n).edges (choice.Left p)) ≡ length (m.edges p) }
    ensures right { (m : Machine S) (n : Machine T) (q : T) →
        length ((one_of_machine m n).edges (choice.Right q)) ≡ length (n.edges q) }
{
    laws::renamed_lists_have_the_renamed_edges::<S, Choice<S, T>>();
    laws::renamed_lists_have_the_renamed_edges::<T, Choice<S, T>>();
    laws::a_copy_of_a_machine_accepts_the_same::<S, Choice<S, T>>();
    laws::a_copy_of_a_machine_accepts_the_same::<T, Choice<S, T>>();
}

/// A machine any number of times: the lists that are joined from finitely many of its lists, or none. The new start
/// has its first edges, and a state of it its edges, and the first ones again if it accepts.
pub fn the_repetition_accepts_any_number_of_lists<S>()
    ensures words { (m : Machine S) (w : List Letter) →
        Accepts (repeat_machine m) w ↔ IsRepetition (Accepts m) w }
    ensures unrolled { (m : Machine S) (w : List Letter) →
        Accepts (repeat_machine m) w
        ↔ ((w ≡ []) ⊎ ((u : List Letter) × (v : List Letter) × (w ≡ u ++ v) × (u ≢ [])
        × Accepts m u × Accepts (repeat_machine m) v)) }
    ensures new { (m : Machine S) → length ((repeat_machine m).edges round.New) ≡ length (m.edges m.start) }
    ensures inner { (m : Machine S) (p : S) →
        length ((repeat_machine m).edges (round.Inner p)) ≤ length (m.edges p) + length (m.edges m.start) }
{
    laws::renamed_lists_have_the_renamed_edges::<S, Round<S>>();
}
