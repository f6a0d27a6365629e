//! One of two automata.

ghost use Rattle.std.specs.Prelude.{◌≡◌, ◌<◌, ◌+◌, ◌^◌, ◌↔◌, ◌⊎◌, ℕ, List, length, Contains, OnOk, refl};
ghost use Rattle.auto_core.specs.declared.labels.Literal.{Literal};
ghost use Rattle.auto_core.specs.Edges.{HasAtMost, LeadsTo, PutsEdge, PassesEdge};
ghost use Rattle.auto_core.specs.Machine.{Letter, Accepts};
ghost use Rattle.sere_automata.specs.declared.states.Choice.TheVariants.{New};
ghost use Rattle.sere_automata.specs.OneOf.{one_of_machine, one_of_edges};
ghost use Rattle.sere_automata.specs.Same.{same_choice};
ghost use Rattle.sere_automata.specs.States.{OfChoice};

use crate::laws::the_choice_accepts_what_either_accepts;
use crate::states::Choice;
use auto_core::{Auto, Label};
use automata_product::{Side, either_label, either_target};
use std::alloc::AllocError;

/// Accepts the lists that one of the two parts accepts.
#[derive(Debug, Drop)]
pub struct OneOf<A, B> {
    pub left: A,
    pub right: B,
}

impl<A: Auto, B: Auto> OneOf<A, B> {
    /// The choice between the two automata.
    pub fn new(left: A, right: B) -> OneOf<A, B>
        ensures made { result ≡ record { left = left; right = right } }
        ensures words { (w : List Letter) →
            Accepts (⟦<OneOf<A, B> as Auto>⟧.machine result) w
            ↔ (Accepts (A.machine left) w ⊎ Accepts (B.machine right) w) }
        ensures few { (i j : ℕ) →
            HasAtMost (A.own left) (A.machine left) i → HasAtMost (B.own right) (B.machine right) j →
            HasAtMost (⟦<OneOf<A, B> as Auto>⟧.own result) (⟦<OneOf<A, B> as Auto>⟧.machine result) (i + j) }
        ensures fits { (i j : ℕ) → A.fits left → B.fits right →
            HasAtMost (A.own left) (A.machine left) i → HasAtMost (B.own right) (B.machine right) j →
            i < 2 ^ 32 → j < 2 ^ 32 → ⟦<OneOf<A, B> as Auto>⟧.fits result }
    {
        the_choice_accepts_what_either_accepts::<A::State, B::State>();
        OneOf { left, right }
    }

    // Where the edge at this place of the new start leads.
    fn first_target(&self, place: usize) -> Choice<A::State, B::State>
        requires fit { ⟦<OneOf<A, B> as Auto>⟧.fits self.now }
        requires there { place < length (one_of_edges (A.machine self.now.left) (B.machine self.now.right) New) }
        ensures edge { LeadsTo (one_of_edges (A.machine self.now.left) (B.machine self.now.right) New) place result }
        ensures owned { OfChoice (A.own self.now.left) (B.own self.now.right) result }
    {
        let start = self.left.start();
        let other = self.right.start();
        match either_target(&self.left, start, &self.right, other, place) {
            Side::Left(p) => Choice::Left(p),
            Side::Right(q) => Choice::Right(q),
        }
    }

    // Puts the label of the edge at this place of the new start.
    fn first_label(&self, place: usize, onto: &mut Label) -> Result<(), AllocError>
        requires fit { ⟦<OneOf<A, B> as Auto>⟧.fits self.now }
        requires there { place < length (one_of_edges (A.machine self.now.left) (B.machine self.now.right) New) }
        ensures edge { OnOk result
            (PutsEdge (one_of_edges (A.machine self.now.left) (B.machine self.now.right) New) place onto.old onto.new) }
        ensures passes { OnOk result
            (PassesEdge (one_of_edges (A.machine self.now.left) (B.machine self.now.right) New) place onto.old
            onto.new) }
        ensures kept { (l : Literal) → Contains onto.old l → Contains onto.new l }
    {
        let start = self.left.start();
        let other = self.right.start();
        either_label(&self.left, start, &self.right, other, place, onto)
    }
}

impl<A: Auto, B: Auto> Auto for OneOf<A, B> {
    type State = Choice<A::State, B::State>;

    ghost machine = { λ s. one_of_machine (A.machine s.left) (B.machine s.right) };

    ghost own = { λ s. OfChoice (A.own s.left) (B.own s.right) };

    ghost fits = { λ s. A.fits s.left × B.fits s.right
        × (length ((one_of_machine (A.machine s.left) (B.machine s.right)).edges New) < 2 ^ 64) };

    fn start(&self) -> Choice<A::State, B::State> {
        Choice::New
    }

    fn accepts(&self, state: Choice<A::State, B::State>) -> bool {
        match state {
            Choice::New => {
                self.left.accepts(self.left.start()) || self.right.accepts(self.right.start())
            }
            Choice::Left(p) => self.left.accepts(p),
            Choice::Right(q) => self.right.accepts(q),
        }
    }

    fn edge_count(&self, state: Choice<A::State, B::State>) -> usize {
        match state {
            Choice::New => {
                self.left.edge_count(self.left.start()) + self.right.edge_count(self.right.start())
            }
            Choice::Left(p) => self.left.edge_count(p),
            Choice::Right(q) => self.right.edge_count(q),
        }
    }

    fn target(
        &self,
        state: Choice<A::State, B::State>,
        place: usize,
    ) -> Choice<A::State, B::State> {
        match state {
            Choice::New => self.first_target(place),
            Choice::Left(p) => Choice::Left(self.left.target(p, place)),
            Choice::Right(q) => Choice::Right(self.right.target(q, place)),
        }
    }

    fn label(
        &self,
        state: Choice<A::State, B::State>,
        place: usize,
        onto: &mut Label,
    ) -> Result<(), AllocError> {
        match state {
            Choice::New => self.first_label(place, onto),
            Choice::Left(p) => self.left.label(p, place, onto),
            Choice::Right(q) => self.right.label(q, place, onto),
        }
    }

    ghost same = { same_choice A.same B.same (record {
      left = λ p q. refl;
      right = λ p q. refl;
      new_left = λ p. refl;
      new_right = λ q. refl;
      left_new = λ p. refl;
      right_new = λ q. refl;
      left_right = λ p q. refl;
      right_left = λ q p. refl;
    }) };
}
