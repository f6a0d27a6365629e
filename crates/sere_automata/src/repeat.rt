//! An automaton any number of times.

ghost use Rattle.std.specs.Prelude.{◌≡◌, ◌≢◌, ◌<◌, ◌+◌, ◌^◌, ◌↔◌, ◌⊎◌, ℕ, List, [], ◌++◌, length, Contains, OnOk, refl};
ghost use Rattle.auto_core.specs.declared.labels.Literal.{Literal};
ghost use Rattle.auto_core.specs.Edges.{HasAtMost, LeadsTo, PutsEdge, PassesEdge};
ghost use Rattle.auto_core.specs.Machine.{Letter, Accepts};
ghost use Rattle.auto_core.specs.Splits.{IsRepetition};
ghost use Rattle.sere_automata.specs.declared.states.Round.TheVariants.{Inner};
ghost use Rattle.sere_automata.specs.Repeat.{repeat_machine, repeat_edges};
ghost use Rattle.sere_automata.specs.Same.{same_round};
ghost use Rattle.sere_automata.specs.States.{OfRound};

use crate::laws::the_repetition_accepts_any_number_of_lists;
use crate::states::Round;
use auto_core::{Auto, Label};
use automata_product::{Side, either_label, either_target};
use std::alloc::AllocError;

/// Accepts the lists that are joined from finitely many lists, or none, each accepted by the part.
#[derive(Debug, Drop)]
pub struct Repeat<A> {
    pub inner: A,
}

impl<A: Auto> Repeat<A> {
    /// The automaton any number of times.
    pub fn new(inner: A) -> Repeat<A>
        ensures made { result ≡ record { inner = inner } }
        ensures words { (w : List Letter) →
            Accepts (⟦<Repeat<A> as Auto>⟧.machine result) w ↔ IsRepetition (Accepts (A.machine inner)) w }
        ensures unrolled { (w : List Letter) →
            Accepts (⟦<Repeat<A> as Auto>⟧.machine result) w
            ↔ ((w ≡ []) ⊎ ((u : List Letter) × (v : List Letter) × (w ≡ u ++ v) × (u ≢ [])
            × Accepts (A.machine inner) u × Accepts (⟦<Repeat<A> as Auto>⟧.machine result) v)) }
        ensures few { (i : ℕ) → HasAtMost (A.own inner) (A.machine inner) i →
            HasAtMost (⟦<Repeat<A> as Auto>⟧.own result) (⟦<Repeat<A> as Auto>⟧.machine result) (i + i) }
        ensures fits { (i : ℕ) → A.fits inner → HasAtMost (A.own inner) (A.machine inner) i →
            i < 2 ^ 32 → ⟦<Repeat<A> as Auto>⟧.fits result }
    {
        the_repetition_accepts_any_number_of_lists::<A::State>();
        Repeat { inner }
    }

    // How many edges a state of the part has here.
    fn inner_count(&self, state: A::State) -> usize
        requires fit { ⟦<Repeat<A> as Auto>⟧.fits self.now }
        requires owned { A.own self.now.inner state }
        ensures { result ≡ length (repeat_edges (A.machine self.now.inner) (Inner state)) }
    {
        let count = self.inner.edge_count(state);
        if self.inner.accepts(state) {
            count + self.inner.edge_count(self.inner.start())
        } else {
            count
        }
    }

    // Where the edge at this place of a state of the part leads.
    fn inner_target(&self, state: A::State, place: usize) -> A::State
        requires fit { ⟦<Repeat<A> as Auto>⟧.fits self.now }
        requires owned { A.own self.now.inner state }
        requires there { place < length (repeat_edges (A.machine self.now.inner) (Inner state)) }
        ensures edge { LeadsTo (repeat_edges (A.machine self.now.inner) (Inner state)) place (Inner result) }
        ensures owned { A.own self.now.inner result }
    {
        if self.inner.accepts(state) {
            let start = self.inner.start();
            match either_target(&self.inner, state, &self.inner, start, place) {
                Side::Left(p) => p,
                Side::Right(q) => q,
            }
        } else {
            self.inner.target(state, place)
        }
    }

    // Puts the label of the edge at this place of a state of the part.
    fn inner_label(&self, state: A::State, place: usize, onto: &mut Label) -> Result<(), AllocError>
        requires fit { ⟦<Repeat<A> as Auto>⟧.fits self.now }
        requires owned { A.own self.now.inner state }
        requires there { place < length (repeat_edges (A.machine self.now.inner) (Inner state)) }
        ensures edge { OnOk result
            (PutsEdge (repeat_edges (A.machine self.now.inner) (Inner state)) place onto.old onto.new) }
        ensures passes { OnOk result
            (PassesEdge (repeat_edges (A.machine self.now.inner) (Inner state)) place onto.old onto.new) }
        ensures kept { (l : Literal) → Contains onto.old l → Contains onto.new l }
    {
        if self.inner.accepts(state) {
            let start = self.inner.start();
            either_label(&self.inner, state, &self.inner, start, place, onto)
        } else {
            self.inner.label(state, place, onto)
        }
    }
}

impl<A: Auto> Auto for Repeat<A> {
    type State = Round<A::State>;

    ghost machine = { λ s. repeat_machine (A.machine s.inner) };

    ghost own = { λ s. OfRound (A.own s.inner) };

    ghost fits = { λ s. A.fits s.inner × ((p : A.State) →
        A.own s.inner p → length ((repeat_machine (A.machine s.inner)).edges (Inner p)) < 2 ^ 64) };

    fn start(&self) -> Round<A::State> {
        Round::New
    }

    fn accepts(&self, state: Round<A::State>) -> bool {
        match state {
            Round::New => true,
            Round::Inner(p) => self.inner.accepts(p),
        }
    }

    fn edge_count(&self, state: Round<A::State>) -> usize {
        match state {
            Round::New => self.inner.edge_count(self.inner.start()),
            Round::Inner(p) => self.inner_count(p),
        }
    }

    fn target(&self, state: Round<A::State>, place: usize) -> Round<A::State> {
        match state {
            Round::New => Round::Inner(self.inner.target(self.inner.start(), place)),
            Round::Inner(p) => Round::Inner(self.inner_target(p, place)),
        }
    }

    fn label(
        &self,
        state: Round<A::State>,
        place: usize,
        onto: &mut Label,
    ) -> Result<(), AllocError> {
        match state {
            Round::New => self.inner.label(self.inner.start(), place, onto),
            Round::Inner(p) => self.inner_label(p, place, onto),
        }
    }

    ghost same = { same_round A.same (record {
      inner = λ p q. refl;
      new_inner = λ q. refl;
      inner_new = λ p. refl;
    }) };
}
