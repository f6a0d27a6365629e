//! Two automata, one after the other.

ghost use Rattle.std.specs.Prelude.{◌≡◌, ◌<◌, ◌+◌, ◌^◌, ◌↔◌, ℕ, List, length, Contains, OnOk, refl};
ghost use Rattle.auto_core.specs.declared.labels.Literal.{Literal};
ghost use Rattle.auto_core.specs.Edges.{HasAtMost, LeadsTo, PutsEdge, PassesEdge};
ghost use Rattle.auto_core.specs.Machine.{Letter, Accepts};
ghost use Rattle.auto_core.specs.Splits.{IsConcatenation};
ghost use Rattle.automata_product.specs.declared.side.Side.TheVariants.{Left, Right};
ghost use Rattle.automata_product.specs.Same.{same_side};
ghost use Rattle.automata_product.specs.Sides.{OfSides};
ghost use Rattle.sere_automata.specs.Concat.{concat_machine, concat_edges};

use crate::laws::the_concatenation_accepts_one_list_after_the_other;
use auto_core::{Auto, Label};
use automata_product::{Side, either_label, either_target};
use std::alloc::AllocError;

/// Accepts the lists that `left` accepts followed by those that `right` accepts.
#[derive(Debug, Drop)]
pub struct Concat<A, B> {
    pub left: A,
    pub right: B,
}

impl<A: Auto, B: Auto> Concat<A, B> {
    /// The one automaton after the other.
    pub fn new(left: A, right: B) -> Concat<A, B>
        ensures made { result ≡ record { left = left; right = right } }
        ensures words { (w : List Letter) →
            Accepts (⟦<Concat<A, B> as Auto>⟧.machine result) w
            ↔ IsConcatenation (Accepts (A.machine left)) (Accepts (B.machine right)) w }
        ensures few { (i j : ℕ) →
            HasAtMost (A.own left) (A.machine left) i → HasAtMost (B.own right) (B.machine right) j →
            HasAtMost (⟦<Concat<A, B> as Auto>⟧.own result) (⟦<Concat<A, B> as Auto>⟧.machine result) (i + j) }
        ensures fits { (i j : ℕ) → A.fits left → B.fits right →
            HasAtMost (A.own left) (A.machine left) i → HasAtMost (B.own right) (B.machine right) j →
            i < 2 ^ 32 → j < 2 ^ 32 → ⟦<Concat<A, B> as Auto>⟧.fits result }
    {
        the_concatenation_accepts_one_list_after_the_other::<A::State, B::State>();
        Concat { left, right }
    }

    // How many edges a state of the left part has here.
    fn left_count(&self, state: A::State) -> usize
        requires fit { ⟦<Concat<A, B> as Auto>⟧.fits self.now }
        requires owned { A.own self.now.left state }
        ensures { result ≡ length (concat_edges (A.machine self.now.left) (B.machine self.now.right) (Left state)) }
    {
        let count = self.left.edge_count(state);
        if self.left.accepts(state) {
            count + self.right.edge_count(self.right.start())
        } else {
            count
        }
    }

    // Where the edge at this place of a state of the left part leads.
    fn left_target(&self, state: A::State, place: usize) -> Side<A::State, B::State>
        requires fit { ⟦<Concat<A, B> as Auto>⟧.fits self.now }
        requires owned { A.own self.now.left state }
        requires there { place < length
            (concat_edges (A.machine self.now.left) (B.machine self.now.right) (Left state)) }
        ensures edge { LeadsTo (concat_edges (A.machine self.now.left) (B.machine self.now.right) (Left state))
            place result }
        ensures owned { OfSides (A.own self.now.left) (B.own self.now.right) result }
    {
        if self.left.accepts(state) {
            let start = self.right.start();
            either_target(&self.left, state, &self.right, start, place)
        } else {
            Side::Left(self.left.target(state, place))
        }
    }

    // Puts the label of the edge at this place of a state of the left part.
    fn left_label(&self, state: A::State, place: usize, onto: &mut Label) -> Result<(), AllocError>
        requires fit { ⟦<Concat<A, B> as Auto>⟧.fits self.now }
        requires owned { A.own self.now.left state }
        requires there { place < length
            (concat_edges (A.machine self.now.left) (B.machine self.now.right) (Left state)) }
        ensures edge { OnOk result
            (PutsEdge (concat_edges (A.machine self.now.left) (B.machine self.now.right) (Left state)) place
            onto.old onto.new) }
        ensures passes { OnOk result
            (PassesEdge (concat_edges (A.machine self.now.left) (B.machine self.now.right) (Left state)) place
            onto.old onto.new) }
        ensures kept { (l : Literal) → Contains onto.old l → Contains onto.new l }
    {
        if self.left.accepts(state) {
            let start = self.right.start();
            either_label(&self.left, state, &self.right, start, place, onto)
        } else {
            self.left.label(state, place, onto)
        }
    }
}

impl<A: Auto, B: Auto> Auto for Concat<A, B> {
    type State = Side<A::State, B::State>;

    ghost machine = { λ s. concat_machine (A.machine s.left) (B.machine s.right) };

    ghost own = { λ s. OfSides (A.own s.left) (B.own s.right) };

    ghost fits = { λ s. A.fits s.left × B.fits s.right × ((p : A.State) →
        A.own s.left p → length ((concat_machine (A.machine s.left) (B.machine s.right)).edges (Left p)) < 2 ^ 64) };

    fn start(&self) -> Side<A::State, B::State> {
        Side::Left(self.left.start())
    }

    fn accepts(&self, state: Side<A::State, B::State>) -> bool {
        match state {
            Side::Left(p) => self.left.accepts(p) && self.right.accepts(self.right.start()),
            Side::Right(q) => self.right.accepts(q),
        }
    }

    fn edge_count(&self, state: Side<A::State, B::State>) -> usize {
        match state {
            Side::Left(p) => self.left_count(p),
            Side::Right(q) => self.right.edge_count(q),
        }
    }

    fn target(&self, state: Side<A::State, B::State>, place: usize) -> Side<A::State, B::State> {
        match state {
            Side::Left(p) => self.left_target(p, place),
            Side::Right(q) => Side::Right(self.right.target(q, place)),
        }
    }

    fn label(
        &self,
        state: Side<A::State, B::State>,
        place: usize,
        onto: &mut Label,
    ) -> Result<(), AllocError> {
        match state {
            Side::Left(p) => self.left_label(p, place, onto),
            Side::Right(q) => self.right.label(q, place, onto),
        }
    }

    ghost same = { same_side A.same B.same (record {
      left = λ p q. refl;
      right = λ p q. refl;
      left_right = λ p q. refl;
      right_left = λ p q. refl;
    }) };
}
