//! Sets of states, each as the list of its members in order.

ghost use Rattle.std.specs.Prelude.{◌≡◌, [], OnOk};
ghost use Rattle.weak_determinise.specs.inner.Numbers.{IsRising, PutsIn};
ghost use Rattle.std.specs.Hash as fed;
ghost use Rattle.std.specs.Cmp.Rules.{comparing};
ghost use Rattle.std.proofs.lemmas.Bool.Decides.{Decides-eqb};
ghost use Rattle.std.specs.Cmp.Lexicographic.{pointwise, lists_per, lists_equiv};

use crate::numbers::put_place;
use std::alloc::{AllocError, Global};
use std::hash::{Hash, Hasher};
use std::marker::Model;

/// A list of states, that can be a key.
#[derive(Debug, Drop)]
pub(crate) struct Places {
    places: Vec<u32>,
}

impl Model for Places {
    ghost use Rattle.std.specs.Prelude.{List, ℕ};

    ghost Value = { List ℕ };

    ghost view = { λ p. p.places.items };
}

impl PartialEq for Places {
    ghost eq = { pointwise ⟦<u32 as PartialEq>⟧.eq };

    ghost laws = { lists_per (Prim.search comparing) };

    fn eq(&self, other: &Places) -> bool {
        self.places.as_slice() == other.places.as_slice()
    }
}

impl Eq for Places {
    ghost laws = { lists_equiv (Prim.search comparing) };
}

impl Hash for Places {
    ghost hash_input = { fed.slice ⟦<u32 as Hash>⟧.hash_input };

    ghost respects_eq = { (fed.items_Alike (fed.same_Alike ⟦<u32 as Hash>⟧.hash_input Decides-eqb)).fed };

    fn hash<H: Hasher>(&self, state: &mut H) {
        self.places.as_slice().hash(state);
    }
}

impl Places {
    pub(crate) fn new(places: Vec<u32>) -> Places
        ensures { result ≡ places.items }
    {
        Places { places }
    }

    pub(crate) fn none(alloc: Global) -> Places
        ensures { result ≡ [] }
    {
        Places {
            places: Vec::new(alloc),
        }
    }

    pub(crate) fn as_slice(&self) -> &[u32]
        ensures { result.now ≡ self.now }
    {
        self.places.as_slice()
    }

    /// Puts a state where it belongs, unless it is there.
    pub(crate) fn put(&mut self, place: u32) -> Result<(), AllocError>
        requires { IsRising self.old }
        ensures { OnOk result (PutsIn place self.old self.new) }
    {
        put_place(&mut self.places, place)
    }
}
