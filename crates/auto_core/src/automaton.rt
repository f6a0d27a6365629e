//! What every automaton offers.

ghost use Rattle.std.specs.Prelude.{◌≡◌, ◌<◌, true, length, slice_get, Contains, OnOk};
ghost use Rattle.auto_core.specs.Edges.{LeadsTo, PutsEdge, PassesEdge, last_edges};
ghost use Rattle.auto_core.specs.Machine.{Machine};
ghost use Rattle.auto_core.specs.declared.labels.Literal.{Literal};

use crate::labels::Label;
use std::alloc::AllocError;
use std::hash::Hash;

/// An automaton over labels, whose states and edges are reckoned as they are asked for.
///
/// A state that is passed in is one of the automaton's own, and a place is below the number of that state's edges.
pub trait Auto {
    type State: Copy + Eq + Hash;

    // The automaton as plain data.
    ghost machine: { Self → Machine Self.State };

    // Which states are the automaton's own.
    ghost own: { Self → Self.State → Type 0 };

    // The number of edges of each own state fits a `usize`, in all parts too.
    ghost fits: { Self → Type 0 };

    fn start(&self) -> Self::State
        requires { fits self.now }
        ensures value { result ≡ (machine self.now).start }
        ensures owned { own self.now result };

    fn accepts(&self, state: Self::State) -> bool
        requires fit { fits self.now }
        requires owned { own self.now state }
        ensures { result ≡ (machine self.now).accepts state };

    /// How many edges leave the state, equal ones counted as often as they come.
    fn edge_count(&self, state: Self::State) -> usize
        requires fit { fits self.now }
        requires owned { own self.now state }
        ensures { result ≡ length ((machine self.now).edges state) };

    /// The state that the edge at this place leads to.
    fn target(&self, state: Self::State, place: usize) -> Self::State
        requires fit { fits self.now }
        requires owned { own self.now state }
        requires there { place < length ((machine self.now).edges state) }
        ensures edge { LeadsTo ((machine self.now).edges state) place result }
        ensures owned { own self.now result };

    /// Puts the literals of the edge at this place into `onto`. After want of memory some of them may be there,
    /// beside all that were.
    fn label(&self, state: Self::State, place: usize, onto: &mut Label) -> Result<(), AllocError>
        requires fit { fits self.now }
        requires owned { own self.now state }
        requires there { place < length ((machine self.now).edges state) }
        ensures edge { OnOk result (PutsEdge ((machine self.now).edges state) place onto.old onto.new) }
        ensures passes { OnOk result (PassesEdge ((machine self.now).edges state) place onto.old onto.new) }
        ensures kept { (l : Literal) → Contains onto.old l → Contains onto.new l };

    /// How many edges lead from the state to one that accepts.
    fn last_count(&self, state: Self::State) -> usize
        requires fit { fits self.now }
        requires owned { own self.now state }
        ensures { result ≡ length (last_edges (machine self.now) state) }
    {
        let mut count = 0;
        for place in 0..self.edge_count(state) {
            let next = self.target(state, place);
            if self.accepts(next) {
                count += 1;
            }
        }
        count
    }

    /// The place among the state's edges of the one with this rank among those that lead to a state that accepts.
    fn last_place(&self, state: Self::State, rank: usize) -> usize
        requires fit { fits self.now }
        requires owned { own self.now state }
        requires there { rank < length (last_edges (machine self.now) state) }
        ensures within { result < length ((machine self.now).edges state) }
        ensures same { slice_get ((machine self.now).edges state) result ≡ slice_get
            (last_edges (machine self.now) state) rank }
    {
        let mut seen = 0;
        for place in 0..self.edge_count(state) {
            let next = self.target(state, place);
            if self.accepts(next) {
                if seen == rank {
                    return place;
                }
                seen += 1;
            }
        }
        unreachable!()
    }

    // Two states for which `==` answers true are the same state.
    ghost same: { (x y : Self.State) → Self.State.eq x y ≡ true → x ≡ y };
}

impl<A: Auto> Auto for &A {
    type State = A::State;

    ghost machine = { λ a. A.machine a.now };

    ghost own = { λ a. A.own a.now };

    ghost fits = { λ a. A.fits a.now };

    fn start(&self) -> A::State {
        A::start(*self)
    }

    fn accepts(&self, state: A::State) -> bool {
        A::accepts(*self, state)
    }

    fn edge_count(&self, state: A::State) -> usize {
        A::edge_count(*self, state)
    }

    fn target(&self, state: A::State, place: usize) -> A::State {
        A::target(*self, state, place)
    }

    fn label(&self, state: A::State, place: usize, onto: &mut Label) -> Result<(), AllocError> {
        A::label(*self, state, place, onto)
    }

    fn last_count(&self, state: A::State) -> usize {
        A::last_count(*self, state)
    }

    fn last_place(&self, state: A::State, rank: usize) -> usize {
        A::last_place(*self, state, rank)
    }

    ghost same = { A.same };
}
