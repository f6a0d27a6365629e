//! A number of copies of an automaton, one after the other.

ghost use Rattle.std.specs.Prelude.{◌≡◌, ◌<◌, ◌^◌, ◌-◌, ℕ, suc, length, Contains, OnOk};
ghost use Rattle.std.proofs.lemmas.Bool.Decides.{Decides-eqb};
ghost use Rattle.auto_core.specs.declared.labels.Literal.{Literal};
ghost use Rattle.auto_core.specs.Edges.{LeadsTo, PutsEdge};
ghost use Rattle.automata_product.specs.Same.{same_pair};
ghost use Rattle.sequence_tables.specs.inner.Copies.{later, following, chain_edges, chain_machine};

use auto_core::laws::a_union_has_the_literals_of_both;
use auto_core::{Auto, Label};
use std::alloc::AllocError;

/// At least one copy of an automaton, one after the other. A state is the number of a copy and a state of it.
///
/// All copies share one automaton, so the table of them takes time and memory for its own states and edges alone.
#[derive(Debug, Drop)]
pub(crate) struct Copies<A> {
    pub(crate) body: A,
    pub(crate) count: u32,
}

impl<A: Auto> Copies<A> {
    // How many of the later copies may begin where this one ends.
    fn later(&self, copy: u32) -> usize
        requires fit { ⟦<Copies<A> as Auto>⟧.fits self.now }
        requires there { copy < self.now.count }
        ensures { result ≡ later ((A.machine self.now.body).accepts (A.machine self.now.body).start)
            (self.now.count - suc copy) }
    {
        let left = (self.count - copy - 1) as usize;
        let empty = self.body.accepts(self.body.start());
        counted(empty, left)
    }

    // Where the edge at this place among the first ones of the later copies leads.
    fn first_target(&self, copy: u32, past: usize) -> (u32, A::State)
        requires fit { ⟦<Copies<A> as Auto>⟧.fits self.now }
        requires owned { copy < self.now.count }
        requires there { past < length (following (A.machine self.now.body) self.now.count copy) }
        ensures edge { LeadsTo (following (A.machine self.now.body) self.now.count copy) past result }
        ensures number { result.0 < self.now.count }
        ensures owned { A.own self.now.body result.1 }
    {
        let start = self.body.start();
        let count = self.body.edge_count(start);
        (
            copy + 1 + (past / count) as u32,
            self.body.target(start, past % count),
        )
    }

    // Puts the label of the edge at this place among the first ones of the later copies.
    fn first_label(&self, copy: u32, past: usize, onto: &mut Label) -> Result<(), AllocError>
        requires fit { ⟦<Copies<A> as Auto>⟧.fits self.now }
        requires owned { copy < self.now.count }
        requires there { past < length (following (A.machine self.now.body) self.now.count copy) }
        ensures edge { OnOk result
            (PutsEdge (following (A.machine self.now.body) self.now.count copy) past onto.old onto.new) }
        ensures kept { (l : Literal) → Contains onto.old l → Contains onto.new l }
    {
        let _ = copy;
        let start = self.body.start();
        let count = self.body.edge_count(start);
        self.body.label(start, past % count, onto)
    }

    // Puts the label of the edge at this place.
    fn edge_label(
        &self,
        copy: u32,
        at: A::State,
        place: usize,
        onto: &mut Label,
    ) -> Result<(), AllocError>
        requires fit { ⟦<Copies<A> as Auto>⟧.fits self.now }
        requires number { copy < self.now.count }
        requires owned { A.own self.now.body at }
        requires there { place < length (chain_edges (A.machine self.now.body) self.now.count (copy, at)) }
        ensures edge { OnOk result
            (PutsEdge (chain_edges (A.machine self.now.body) self.now.count (copy, at)) place onto.old onto.new) }
        ensures kept { (l : Literal) → Contains onto.old l → Contains onto.new l }
    {
        let count = self.body.edge_count(at);
        if place < count {
            self.body.label(at, place, onto)
        } else {
            self.first_label(copy, place - count, onto)
        }
    }
}

// Where the empty list is accepted, any number of copies may be left out.
fn counted(empty: bool, left: usize) -> usize
    ensures { result ≡ later empty left }
{
    if left == 0 || empty { left } else { 1 }
}

impl<A: Auto> Auto for Copies<A> {
    type State = (u32, A::State);

    ghost machine = { λ c. chain_machine (A.machine c.body) c.count };

    ghost own = { λ c s. (s.0 < c.count) × A.own c.body s.1 };

    ghost fits = { λ c. A.fits c.body × (0 < c.count) × (c.count < 2 ^ 32) × ((i : ℕ) (p : A.State) →
        i < c.count → A.own c.body p → length ((chain_machine (A.machine c.body) c.count).edges (i, p)) < 2 ^ 64) };

    fn start(&self) -> (u32, A::State) {
        (0, self.body.start())
    }

    fn accepts(&self, state: (u32, A::State)) -> bool {
        self.body.accepts(state.1)
            && (self.body.accepts(self.body.start()) || state.0 == self.count - 1)
    }

    fn edge_count(&self, state: (u32, A::State)) -> usize {
        let count = self.body.edge_count(state.1);
        if self.body.accepts(state.1) {
            count + self.later(state.0) * self.body.edge_count(self.body.start())
        } else {
            count
        }
    }

    fn target(&self, state: (u32, A::State), place: usize) -> (u32, A::State) {
        let count = self.body.edge_count(state.1);
        if place < count {
            (state.0, self.body.target(state.1, place))
        } else {
            self.first_target(state.0, place - count)
        }
    }

    fn label(
        &self,
        state: (u32, A::State),
        place: usize,
        onto: &mut Label,
    ) -> Result<(), AllocError> {
        a_union_has_the_literals_of_both();
        self.edge_label(state.0, state.1, place, onto)
    }

    ghost same = { same_pair (λ x y e. (Decides-eqb x y).0 e) A.same };
}
