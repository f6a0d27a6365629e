//! Expressions as they are written.

ghost use Rattle.std.specs.Prelude.{◌≡◌, IfOk};
ghost use Rattle.psl_grammar.specs.View.{expr_of};

use std::alloc::{AllocError, Global};
use std::marker::Model;

/// Each number is that of a token. Parentheses leave no node.
#[cycle(expr)]
#[derive(Debug, Drop)]
pub enum RawExpr {
    /// A signal, and the numbers of its select: the place or the high end, and the low end.
    Name {
        name: u32,
        select: Option<(u32, Option<u32>)>,
    },
    /// A decimal, a sized literal, `true` or `false`.
    Literal(u32),
    Unary(u32, RawSubexpr),
    Binary {
        mark: u32,
        left: RawSubexpr,
        right: RawSubexpr,
    },
    /// `mark` is the `?`.
    Choice {
        mark: u32,
        test: RawSubexpr,
        yes: RawSubexpr,
        no: RawSubexpr,
    },
}

/// An operand, on the heap.
#[cycle(expr)]
#[derive(Debug, Drop)]
pub struct RawSubexpr {
    node: Box<RawExpr>,
}

impl Model for RawSubexpr {
    ghost use Rattle.psl_grammar.specs.RawExpr as tree;
    ghost use Rattle.psl_grammar.specs.inner.Codes.{coded_expr};

    ghost Value = { tree.RawExpr };

    ghost coded = { coded_expr };

    ghost use Rattle.psl_grammar.specs.View.{expr_of};

    ghost view = { λ s. expr_of s.node.value };

    ghost size = { tree.expr_size };
}

impl RawSubexpr {
    pub fn new(alloc: Global, expr: RawExpr) -> Result<RawSubexpr, AllocError>
        ensures whole_tree { IfOk result (λ operand. operand ≡ expr_of expr) }
    {
        Ok(RawSubexpr {
            node: Box::new(alloc, expr)?,
        })
    }

    pub fn get(&self) -> &RawExpr
        ensures whole_tree { expr_of result.now ≡ self.now }
    {
        &self.node
    }
}
