//! Two automata that run side by side.

ghost use Rattle.std.specs.Prelude.{◌≡◌, ◌<◌, ◌*◌, ◌^◌, ◌↔◌, ℕ, List, length};
ghost use Rattle.auto_core.specs.Edges.{HasAtMost};
ghost use Rattle.auto_core.specs.Machine.{Letter, Accepts};
ghost use Rattle.automata_product.specs.Both.{both_machine, OfPair};
ghost use Rattle.automata_product.specs.Same.{same_pair};

use crate::laws::the_product_accepts_what_both_accept;
use auto_core::laws::a_union_has_the_literals_of_both;
use auto_core::{Auto, Label};
use std::alloc::AllocError;

/// Accepts what both parts accept.
#[derive(Debug, Drop)]
pub struct Both<A, B> {
    pub left: A,
    pub right: B,
}

impl<A: Auto, B: Auto> Both<A, B> {
    /// Both of the two automata.
    pub fn new(left: A, right: B) -> Both<A, B>
        ensures made { result ≡ record { left = left; right = right } }
        ensures words { (w : List Letter) →
            Accepts (⟦<Both<A, B> as Auto>⟧.machine result) w
            ↔ (Accepts (A.machine left) w × Accepts (B.machine right) w) }
        ensures few { (i j : ℕ) →
            HasAtMost (A.own left) (A.machine left) i → HasAtMost (B.own right) (B.machine right) j →
            HasAtMost (⟦<Both<A, B> as Auto>⟧.own result) (⟦<Both<A, B> as Auto>⟧.machine result) (i * j) }
        ensures fits { (i j : ℕ) → A.fits left → B.fits right →
            HasAtMost (A.own left) (A.machine left) i → HasAtMost (B.own right) (B.machine right) j →
            i < 2 ^ 32 → j < 2 ^ 32 → ⟦<Both<A, B> as Auto>⟧.fits result }
    {
        the_product_accepts_what_both_accept::<A::State, B::State>();
        Both { left, right }
    }
}

impl<A: Auto, B: Auto> Auto for Both<A, B> {
    type State = (A::State, B::State);

    ghost machine = { λ s. both_machine (A.machine s.left) (B.machine s.right) };

    ghost own = { λ s. OfPair (A.own s.left) (B.own s.right) };

    ghost fits = { λ s. A.fits s.left × B.fits s.right × ((p : A.State) (q : B.State) →
        A.own s.left p → B.own s.right q →
        length ((both_machine (A.machine s.left) (B.machine s.right)).edges (p, q)) < 2 ^ 64) };

    fn start(&self) -> (A::State, B::State) {
        (self.left.start(), self.right.start())
    }

    fn accepts(&self, state: (A::State, B::State)) -> bool {
        self.left.accepts(state.0) && self.right.accepts(state.1)
    }

    fn edge_count(&self, state: (A::State, B::State)) -> usize {
        self.left.edge_count(state.0) * self.right.edge_count(state.1)
    }

    fn target(&self, state: (A::State, B::State), place: usize) -> (A::State, B::State) {
        let count = self.right.edge_count(state.1);
        (
            self.left.target(state.0, place / count),
            self.right.target(state.1, place % count),
        )
    }

    fn label(
        &self,
        state: (A::State, B::State),
        place: usize,
        onto: &mut Label,
    ) -> Result<(), AllocError> {
        a_union_has_the_literals_of_both();
        let count = self.right.edge_count(state.1);
        self.left.label(state.0, place / count, onto)?;
        self.right.label(state.1, place % count, onto)
    }

    ghost same = { same_pair A.same B.same };
}
