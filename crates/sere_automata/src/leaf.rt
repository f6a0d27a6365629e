//! The automaton of one step.

ghost use Rattle.std.specs.Prelude.{◌≡◌, ◌↔◌, List, [], ◌∷◌, refl};
ghost use Rattle.auto_core.specs.Edges.{HasAtMost};
ghost use Rattle.auto_core.specs.Machine.{Letter, Passes, Accepts};
ghost use Rattle.sere_automata.specs.Leaf.{leaf_machine};
ghost use Rattle.sere_automata.specs.Same.{same_leaf};

use crate::states::LeafState;
use auto_core::{Auto, Label};
use std::alloc::AllocError;

/// Accepts the lists of one letter that passes the label.
#[derive(Debug, Drop)]
pub struct Leaf {
    pub label: Label,
}

impl Leaf {
    /// The automaton of one step with this label.
    pub fn new(label: Label) -> Leaf
        ensures made { result ≡ record { label = label } }
        ensures words { (w : List Letter) →
            Accepts (⟦<Leaf as Auto>⟧.machine result) w ↔ ((a : Letter) × (w ≡ a ∷ []) × Passes label a) }
        ensures few { HasAtMost (⟦<Leaf as Auto>⟧.own result) (⟦<Leaf as Auto>⟧.machine result) 1 }
    {
        Leaf { label }
    }
}

impl Auto for Leaf {
    type State = LeafState;

    ghost machine = { λ s. leaf_machine s.label };

    ghost own = { λ _ _. Unit {0} };

    ghost fits = { λ _. Unit {0} };

    fn start(&self) -> LeafState {
        LeafState::Start
    }

    fn accepts(&self, state: LeafState) -> bool {
        state == LeafState::End
    }

    fn edge_count(&self, state: LeafState) -> usize {
        match state {
            LeafState::Start => 1,
            LeafState::End => 0,
        }
    }

    fn target(&self, _state: LeafState, _place: usize) -> LeafState {
        LeafState::End
    }

    fn label(&self, _state: LeafState, _place: usize, onto: &mut Label) -> Result<(), AllocError> {
        let _ordered = self.label.literals();
        onto.put_all(&self.label)
    }

    ghost same = { same_leaf _ refl refl };
}
