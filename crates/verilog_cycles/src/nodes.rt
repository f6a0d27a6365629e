//! Expressions that are ready to be evaluated: a list of nodes, each of which reads earlier places of a table.

ghost use Rattle.std.specs.Prelude.{◌≡◌, ℕ, ◌<◌, length, slice_index};
ghost use Rattle.verilog_cycles.specs.inner.Nodes.{node_value, IsNode, IsTape, Meets};

use crate::arithmetic::{binary, part, unary};
use psl_model::{BinOp, UnOp};

/// A node, whose operands are places of the table. The bits at which it is taken are reckoned when a module is loaded.
#[derive(Clone, Copy, Debug)]
pub(crate) enum Node {
    Number(u64),
    /// From the low end on, so many bits.
    Part(usize, u32, u32),
    /// An operand of so many bits.
    Unary(UnOp, u32, usize),
    /// A result of so many bits.
    Binary(BinOp, u32, usize, usize),
    /// A test, the value where it isn't 0, and the value where it is.
    Choice(usize, usize, usize),
}

impl Node {
    fn value(&self, table: &[u64]) -> u64
        requires { IsNode (length table.now) self.now }
        ensures { result ≡ node_value table.now self.now }
    {
        match *self {
            Node::Number(number) => number,
            Node::Part(place, low, width) => part(table[place], low, width),
            Node::Unary(op, width, operand) => unary(op, width, table[operand]),
            Node::Binary(op, context, left, right) => binary(
                op,
                context,
                table[left],
                table[right],
            ),
            Node::Choice(test, yes, no) => {
                if table[test] == 0 {
                    table[no]
                } else {
                    table[yes]
                }
            }
        }
    }
}

/// Evaluates the nodes from a place on, each into its own place of the table.
pub(crate) fn evaluate(nodes: &[Node], first: usize, table: &mut [u64])
    requires size { length table.old ≡ length nodes.now }
    requires tape { IsTape nodes.now }
    ensures met { Meets first nodes.now table.new }
    ensures kept { (s : ℕ) → s < first → slice_index table.new s ≡ slice_index table.old s }
{
    for place in first..nodes.len() {
        table[place] = nodes[place].value(table);
    }
}
