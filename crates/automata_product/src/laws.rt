//! Laws of the machines. The functions do nothing: each contract is the law.

ghost use Rattle.std.specs.Prelude.{◌≡◌, ◌↔◌, ◌+◌, ◌*◌, ◌≤◌, List, length};
ghost use Rattle.auto_core.specs.Machine.{Machine, Letter, Accepts};
ghost use Rattle.auto_core.specs.Splits.{IsFusion};
ghost use Rattle.automata_product.specs.Both.{both_machine};
ghost use Rattle.automata_product.specs.Fuse.{fuse_machine};
ghost use Rattle.automata_product.specs.declared.side.Side.TheVariants.{Left, Right};

use crate::side::Side;
use auto_core::laws;

/// The product accepts what both machines accept. A pair of states has as many edges as theirs multiplied.
pub fn the_product_accepts_what_both_accept<S, T>()
    ensures words { (m : Machine S) (n : Machine T) (w : List Letter) →
        Accepts (both_machine m n) w ↔ (Accepts m w × Accepts n w) }
    ensures edges { (m : Machine S) (n : Machine T) (p : S) (q : T) →
        length ((both_machine m n).edges (p, q)) ≡ length (m.edges p) * length (n.edges q) }
{
    laws::a_union_has_the_literals_of_both();
    laws::joined_lists_have_the_joined_edges::<S, T, (S, T)>();
}

/// The fusion accepts the lists of two parts that overlap in one letter, the first of the one machine and the second
/// of the other. A state of the first keeps its edges, and each of them may be joined with each first edge of the
/// other.
pub fn the_fusion_accepts_the_overlaps_in_one_letter<S, T>()
    ensures words { (m : Machine S) (n : Machine T) (w : List Letter) →
        Accepts (fuse_machine m n) w ↔ IsFusion (Accepts m) (Accepts n) w }
    ensures left { (m : Machine S) (n : Machine T) (p : S) →
        length ((fuse_machine m n).edges (Left p))
        ≤ length (m.edges p) + length (m.edges p) * length (n.edges n.start) }
    ensures right { (m : Machine S) (n : Machine T) (q : T) →
        length ((fuse_machine m n).edges (Right q)) ≡ length (n.edges q) }
{
    laws::a_union_has_the_literals_of_both();
    laws::joined_lists_have_the_joined_edges::<S, T, Side<S, T>>();
    laws::renamed_lists_have_the_renamed_edges::<S, Side<S, T>>();
    laws::tested_lists_have_the_tested_edges::<S>();
    laws::a_copy_of_a_machine_accepts_the_same::<T, Side<S, T>>();
}
