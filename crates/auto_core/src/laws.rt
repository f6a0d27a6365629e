//! Laws of labels, of lists of edges and of machines. The functions do nothing: each contract is the law.

ghost use Rattle.std.specs.Prelude.{◌≡◌, ◌↔◌, ◌⊎◌, ◌≤◌, ℕ, Bool, List, [], length, Contains};
ghost use Rattle.auto_core.specs.declared.labels.Literal.{Literal};
ghost use Rattle.auto_core.specs.Edges.{HasCopy, HasRenamed, HasJoined, HasTested};
ghost use Rattle.auto_core.specs.Graph.{Graph, graph_machine, IsReachedPart};
ghost use Rattle.auto_core.specs.LiteralSets.{IsLabel, put_all};
ghost use Rattle.auto_core.specs.Machine.{Machine, Letter, Passes, AcceptsFrom, Accepts};

/// A set of literals that is put into another gives their union: it has the literals of both, a letter passes it
/// exactly if it passes both, and a union is put in as its one part after the other.
pub fn a_union_has_the_literals_of_both()
    ensures members { (ls ms : List Literal) (l : Literal) →
        Contains (put_all ls ms) l ↔ (Contains ls l ⊎ Contains ms l) }
    ensures passes { (ls ms : List Literal) (a : Letter) → Passes (put_all ls ms) a ↔ (Passes ls a × Passes ms a) }
    ensures ordered { (ls ms : List Literal) → IsLabel ms → IsLabel (put_all ls ms) }
    ensures joined { (ys xs zs : List Literal) → put_all (put_all ys xs) zs ≡ put_all ys (put_all xs zs) }
    ensures itself { (ls : List Literal) → IsLabel ls → put_all ls [] ≡ ls }
{}

/// Which edges a list has that is made by a renaming of targets.
pub fn renamed_lists_have_the_renamed_edges<S, U>()
    ensures { (f : S → U) → HasRenamed f }
{}

/// Which edges a list has that is made of two lists, each edge of the one joined with each of the other.
pub fn joined_lists_have_the_joined_edges<S, T, U>()
    ensures { (f : S → T → U) → HasJoined f }
{}

/// Which edges are left of a list by a test of targets.
pub fn tested_lists_have_the_tested_edges<S>()
    ensures { (test : S → Bool) → HasTested test }
{}

/// A copy of a machine in another accepts from each state what the machine does.
pub fn a_copy_of_a_machine_accepts_the_same<S, U>()
    ensures { (m : Machine S) (k : Machine U) (f : S → U) (s : S) (w : List Letter) →
        HasCopy m k f → AcceptsFrom k (f s) w ↔ AcceptsFrom m s w }
{}

/// Machines that have the same reached part accept the same lists, and so does the part itself.
pub fn the_reached_part_decides_the_words<S, T>()
    ensures part { (m : Machine S) (states : List S) (g : Graph) (w : List Letter) →
        IsReachedPart m states g → Accepts (graph_machine g) w ↔ Accepts m w }
    ensures machines { (m : Machine S) (n : Machine T) (states : List S) (others : List T) (g : Graph)
        (w : List Letter) →
        IsReachedPart m states g → IsReachedPart n others g → Accepts m w ↔ Accepts n w }
{}
