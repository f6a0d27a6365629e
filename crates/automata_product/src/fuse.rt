//! Two automata, the second of which begins in the last step of the first.

ghost use Rattle.std.specs.Prelude.{◌≡◌, ◌<◌, ◌+◌, ◌*◌, ◌^◌, ◌↔◌, ℕ, List, length, Contains, OnOk, refl};
ghost use Rattle.auto_core.specs.declared.labels.Literal.{Literal};
ghost use Rattle.auto_core.specs.Edges.{HasAtMost, LeadsTo, PutsEdge, PassesEdge};
ghost use Rattle.auto_core.specs.Machine.{Letter, Accepts};
ghost use Rattle.auto_core.specs.Splits.{IsFusion};
ghost use Rattle.automata_product.specs.Fuse.{fuse_machine, fuse_edges, joint_edges};
ghost use Rattle.automata_product.specs.declared.side.Side.TheVariants.{Left, Right};
ghost use Rattle.automata_product.specs.Same.{same_side};
ghost use Rattle.automata_product.specs.Sides.{OfSides};

use crate::laws::the_fusion_accepts_the_overlaps_in_one_letter;
use crate::side::Side;
use auto_core::laws::a_union_has_the_literals_of_both;
use auto_core::{Auto, Label};
use std::alloc::AllocError;

/// Accepts the lists of two parts that overlap in one letter, the first accepted by `left` and the second by `right`.
#[derive(Debug, Drop)]
pub struct Fuse<A, B> {
    pub left: A,
    pub right: B,
}

impl<A: Auto, B: Auto> Fuse<A, B> {
    /// The fusion of the two automata.
    pub fn new(left: A, right: B) -> Fuse<A, B>
        ensures made { result ≡ record { left = left; right = right } }
        ensures words { (w : List Letter) →
            Accepts (⟦<Fuse<A, B> as Auto>⟧.machine result) w
            ↔ IsFusion (Accepts (A.machine left)) (Accepts (B.machine right)) w }
        ensures few { (i j : ℕ) →
            HasAtMost (A.own left) (A.machine left) i → HasAtMost (B.own right) (B.machine right) j →
            HasAtMost (⟦<Fuse<A, B> as Auto>⟧.own result) (⟦<Fuse<A, B> as Auto>⟧.machine result) (i + j + i * j) }
        ensures fits { (i j : ℕ) → A.fits left → B.fits right →
            HasAtMost (A.own left) (A.machine left) i → HasAtMost (B.own right) (B.machine right) j →
            i < 2 ^ 32 → j < 2 ^ 32 → ⟦<Fuse<A, B> as Auto>⟧.fits result }
    {
        the_fusion_accepts_the_overlaps_in_one_letter::<A::State, B::State>();
        Fuse { left, right }
    }

    // How many edges a state of the left part has here.
    fn left_count(&self, state: A::State) -> usize
        requires fit { ⟦<Fuse<A, B> as Auto>⟧.fits self.now }
        requires owned { A.own self.now.left state }
        ensures { result ≡ length (fuse_edges (A.machine self.now.left) (B.machine self.now.right) (Left state)) }
    {
        let count = self.left.edge_count(state);
        count + self.left.last_count(state) * self.right.edge_count(self.right.start())
    }

    // Where the edge at this place of a state of the left part leads.
    fn left_target(&self, state: A::State, place: usize) -> Side<A::State, B::State>
        requires fit { ⟦<Fuse<A, B> as Auto>⟧.fits self.now }
        requires owned { A.own self.now.left state }
        requires there { place < length (fuse_edges (A.machine self.now.left) (B.machine self.now.right) (Left state)) }
        ensures edge { LeadsTo (fuse_edges (A.machine self.now.left) (B.machine self.now.right) (Left state))
            place result }
        ensures owned { OfSides (A.own self.now.left) (B.own self.now.right) result }
    {
        let count = self.left.edge_count(state);
        if place < count {
            Side::Left(self.left.target(state, place))
        } else {
            Side::Right(self.joint_target(state, place - count))
        }
    }

    // Where the joint step at this place leads: into the right part.
    fn joint_target(&self, state: A::State, place: usize) -> B::State
        requires fit { ⟦<Fuse<A, B> as Auto>⟧.fits self.now }
        requires owned { A.own self.now.left state }
        requires there { place < length (joint_edges (A.machine self.now.left) (B.machine self.now.right) state) }
        ensures edge { LeadsTo (joint_edges (A.machine self.now.left) (B.machine self.now.right) state)
            place (Right result) }
        ensures owned { B.own self.now.right result }
    {
        let start = self.right.start();
        let count = self.right.edge_count(start);
        self.right.target(start, place % count)
    }

    // Puts the label of the edge at this place of a state of the left part.
    fn left_label(&self, state: A::State, place: usize, onto: &mut Label) -> Result<(), AllocError>
        requires fit { ⟦<Fuse<A, B> as Auto>⟧.fits self.now }
        requires owned { A.own self.now.left state }
        requires there { place < length (fuse_edges (A.machine self.now.left) (B.machine self.now.right) (Left state)) }
        ensures edge { OnOk result
            (PutsEdge (fuse_edges (A.machine self.now.left) (B.machine self.now.right) (Left state)) place onto.old
            onto.new) }
        ensures passes { OnOk result
            (PassesEdge (fuse_edges (A.machine self.now.left) (B.machine self.now.right) (Left state)) place
            onto.old onto.new) }
        ensures kept { (l : Literal) → Contains onto.old l → Contains onto.new l }
    {
        let count = self.left.edge_count(state);
        if place < count {
            self.left.label(state, place, onto)
        } else {
            self.joint_label(state, place - count, onto)
        }
    }

    // Puts the labels of the joint step at this place.
    fn joint_label(&self, state: A::State, place: usize, onto: &mut Label) -> Result<(), AllocError>
        requires fit { ⟦<Fuse<A, B> as Auto>⟧.fits self.now }
        requires owned { A.own self.now.left state }
        requires there { place < length (joint_edges (A.machine self.now.left) (B.machine self.now.right) state) }
        ensures edge { OnOk result
            (PutsEdge (joint_edges (A.machine self.now.left) (B.machine self.now.right) state) place onto.old
            onto.new) }
        ensures passes { OnOk result
            (PassesEdge (joint_edges (A.machine self.now.left) (B.machine self.now.right) state) place onto.old
            onto.new) }
        ensures kept { (l : Literal) → Contains onto.old l → Contains onto.new l }
    {
        a_union_has_the_literals_of_both();
        let start = self.right.start();
        let count = self.right.edge_count(start);
        let last = self.left.last_place(state, place / count);
        self.left.label(state, last, onto)?;
        self.right.label(start, place % count, onto)
    }
}

impl<A: Auto, B: Auto> Auto for Fuse<A, B> {
    type State = Side<A::State, B::State>;

    ghost machine = { λ s. fuse_machine (A.machine s.left) (B.machine s.right) };

    ghost own = { λ s. OfSides (A.own s.left) (B.own s.right) };

    ghost fits = { λ s. A.fits s.left × B.fits s.right × ((p : A.State) →
        A.own s.left p → length ((fuse_machine (A.machine s.left) (B.machine s.right)).edges (Left p)) < 2 ^ 64) };

    fn start(&self) -> Side<A::State, B::State> {
        Side::Left(self.left.start())
    }

    fn accepts(&self, state: Side<A::State, B::State>) -> bool {
        match state {
            Side::Left(_) => false,
            Side::Right(q) => self.right.accepts(q),
        }
    }

    fn edge_count(&self, state: Side<A::State, B::State>) -> usize {
        match state {
            Side::Left(p) => self.left_count(p),
            Side::Right(q) => self.right.edge_count(q),
        }
    }

    fn target(&self, state: Side<A::State, B::State>, place: usize) -> Side<A::State, B::State> {
        match state {
            Side::Left(p) => self.left_target(p, place),
            Side::Right(q) => Side::Right(self.right.target(q, place)),
        }
    }

    fn label(
        &self,
        state: Side<A::State, B::State>,
        place: usize,
        onto: &mut Label,
    ) -> Result<(), AllocError> {
        match state {
            Side::Left(p) => self.left_label(p, place, onto),
            Side::Right(q) => self.right.label(q, place, onto),
        }
    }

    ghost same = { same_side A.same B.same (record {
      left = λ p q. refl;
      right = λ p q. refl;
      left_right = λ p q. refl;
      right_left = λ p q. refl;
    }) };
}
