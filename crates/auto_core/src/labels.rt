//! Literals, and labels, which are sets of them.

ghost use Rattle.std.specs.Prelude.{◌≡◌, ◌<◌, ◌⊎◌, ◌↔◌, [], length, Some, IsTrue, OnOk, OnErr, All, Contains};
ghost use Rattle.auto_core.specs.declared.labels.Literal.{Literal};
ghost use Rattle.auto_core.specs.LiteralSets.{IsLabel, put_literal, put_all};
ghost use Rattle.auto_core.specs.Machine.{Letter, Passes, value_in};
ghost use Rattle.std.specs.Hash as fed;
ghost use Rattle.std.specs.Cmp.Lexicographic.{pointwise, lists_per, lists_equiv};

use smallvec::SmallVec;
use std::alloc::{AllocError, Global};
use std::hash::{Hash, Hasher};
use std::marker::Model;

/// A symbol, or its negation where `positive` is false.
#[derive(Clone, Copy, Debug, Default, PartialEq, Eq, PartialOrd, Ord, Hash)]
pub struct Literal {
    pub symbol: usize,
    pub positive: bool,
}

/// A set of literals, which holds where each of them does.
#[derive(Debug, Drop)]
pub struct Label {
    literals: SmallVec<Literal, 4>,
}

impl Model for Label {
    ghost use Rattle.std.specs.Prelude.{List};
    ghost use Rattle.auto_core.specs.declared.labels.Literal.{Literal};
    ghost use Rattle.auto_core.specs.LiteralSets.{IsLabel};

    ghost Value = { List Literal };

    ghost view = { λ l. l.literals.items };

    ghost invariant = { λ l. IsLabel l.literals.items };
}

impl PartialEq for Label {
    ghost eq = { pointwise ⟦<Literal as PartialEq>⟧.eq };

    ghost use Rattle.auto_core.specs.contracts.labels.LiteralPartialEq.TheImpl.Laws as of_literal;

    ghost laws = { lists_per of_literal.laws-law };

    fn eq(&self, other: &Label) -> bool {
        self.literals.as_slice() == other.literals.as_slice()
    }
}

impl Eq for Label {
    ghost use Rattle.auto_core.specs.contracts.labels.LiteralEq.TheImpl.Laws as of_literal;

    ghost laws = { lists_equiv of_literal.laws-law };
}

impl Hash for Label {
    ghost hash_input = { fed.slice ⟦<Literal as Hash>⟧.hash_input };

    ghost use Rattle.auto_core.specs.contracts.labels.LiteralHash.TheImpl.Laws as of_literal;

    ghost respects_eq = { (fed.items_Alike (record { fed = of_literal.respects_eq-law })).fed };

    fn hash<H: Hasher>(&self, state: &mut H) {
        self.literals.as_slice().hash(state);
    }
}

impl Label {
    /// The label with no literal, which always holds.
    pub fn new(alloc: Global) -> Label
        ensures { result ≡ [] }
    {
        Label {
            literals: SmallVec::new(alloc),
        }
    }

    /// The literals, by symbol, of one symbol the negative one first.
    pub fn literals(&self) -> &[Literal]
        ensures value { result.now ≡ self.now }
        ensures ordered { IsLabel result.now }
    {
        self.literals.as_slice()
    }

    /// Puts a literal into the set; a symbol may stand there with both signs.
    pub fn put(&mut self, literal: Literal) -> Result<(), AllocError>
        ensures ok { OnOk result (self.new ≡ put_literal literal self.old) }
        ensures members { OnOk result ((l : Literal) → Contains self.new l ↔ ((l ≡ literal) ⊎ Contains self.old l)) }
        ensures unchanged { OnErr result (self.new ≡ self.old) }
    {
        match self.literals.as_slice().binary_search(&literal) {
            Ok(_) => Ok(()),
            Err(place) => Ok(self.literals.insert(place, literal)?),
        }
    }

    /// Whether each literal's symbol has the literal's sign, where `values` has the truth value of each symbol by its
    /// number.
    pub fn holds(&self, values: &[bool]) -> bool
        requires { All (λ l. l.symbol < length values.now) self.now }
        ensures { IsTrue result ↔ Passes self.now (Some (value_in values.now)) }
    {
        self.literals()
            .iter()
            .all(|literal| values[literal.symbol] == literal.positive)
    }

    /// Puts all the literals of another label into the set. After want of memory some of them may be there, beside
    /// all that were.
    pub fn put_all(&mut self, other: &Label) -> Result<(), AllocError>
        ensures ok { OnOk result (self.new ≡ put_all other.now self.old) }
        ensures passes { OnOk result ((a : Letter) → Passes self.new a ↔ (Passes other.now a × Passes self.old a)) }
        ensures kept { (l : Literal) → Contains self.old l → Contains self.new l }
    {
        for literal in other.literals() {
            self.put(*literal)?;
        }
        Ok(())
    }
}
