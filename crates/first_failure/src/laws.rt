//! What the automaton of first failure tells. The function does nothing: its contract is the law.

ghost use Rattle.std.specs.Prelude.{◌≡◌, List, map};
ghost use Rattle.auto_core.specs.Graph.{Graph, graph_machine};
ghost use Rattle.weak_determinise.specs.Nodes.{AreReachedSets};
ghost use Rattle.weak_determinise.specs.declared.sets.SetNode.{SetNode};
ghost use Rattle.first_failure.specs.declared.automaton.FailAuto.{FailAuto};
ghost use Rattle.first_failure.specs.FirstFailure.{row_of, TellsFirstFailure, IsWhole};

/// The rows made of a table's reached sets tell, of each list of truth values, whether some non-empty prefix is
/// accepted, and else whether the list can still be accepted with tops after it.
pub fn the_rows_of_reached_sets_tell_the_first_failure()
    ensures tells { (g : Graph) (nodes : List SetNode) (auto : FailAuto) →
        AreReachedSets (graph_machine g) nodes → auto.rows ≡ map row_of nodes →
        TellsFirstFailure (graph_machine g) auto }
    ensures whole { (g : Graph) (nodes : List SetNode) (auto : FailAuto) →
        AreReachedSets (graph_machine g) nodes → auto.rows ≡ map row_of nodes → IsWhole auto }
{}
