//! The words of a composed automaton, by the clauses of the constructors alone.

ghost use Rattle.std.specs.Prelude.{◌↔◌, List};
ghost use Rattle.auto_core.specs.Machine.{Letter, Accepts};
ghost use Rattle.auto_core.specs.Splits.{IsConcatenation, IsFusion};

use auto_core::Auto;
use automata_product::{Both, Fuse};
use sere_automata::{Concat, Leaf};

fn composed(a: Leaf, b: Leaf, c: Leaf, d: Leaf) -> Both<Fuse<Leaf, Leaf>, Concat<Leaf, Leaf>>
    ensures { (w : List Letter) →
        Accepts (⟦<Both<Fuse<Leaf, Leaf>, Concat<Leaf, Leaf>> as Auto>⟧.machine result) w
        ↔ (IsFusion (Accepts (⟦<Leaf as Auto>⟧.machine a)) (Accepts (⟦<Leaf as Auto>⟧.machine b)) w
        × IsConcatenation (Accepts (⟦<Leaf as Auto>⟧.machine c)) (Accepts (⟦<Leaf as Auto>⟧.machine d)) w) }
{
    Both::new(Fuse::new(a, b), Concat::new(c, d))
}
