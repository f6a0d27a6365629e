//! Whether no list of tops is accepted.

ghost use Rattle.std.specs.Prelude.{◌↔◌, ◌+◌, ℕ, IsTrue, None, replicate};
ghost use Rattle.auto_core.specs.Graph.{graph_machine, AreMarks};
ghost use Rattle.auto_core.specs.Machine.{Accepts};

use crate::aliveness::Marks;
use crate::automaton::Auto;
use crate::tables::Table;

/// Whether no non-empty list of tops is accepted, so that nothing can meet an obligation. `marks` are those that
/// `alive` gives of the table.
pub fn contradiction(table: &Table, marks: &Marks) -> bool
    requires { AreMarks table.now marks.now }
    ensures { IsTrue result ↔ ((n : ℕ) → ¬ Accepts (graph_machine table.now) (replicate (n + 1) None)) }
{
    let start = table.start();
    for place in 0..table.edge_count(start) {
        if marks.get(table.target(start, place)) {
            return false;
        }
    }
    true
}
