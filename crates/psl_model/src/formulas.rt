//! Formulas of the foundation language.

ghost use Rattle.std.specs.Prelude.{◌≡◌, IfOk};
ghost use Rattle.psl_model.specs.View.{formula_of};

use crate::expressions::Expr;
use crate::sequences::Sere;
use std::alloc::{AllocError, Global};
use std::marker::Model;

/// How much of a range of cycles a `next` or `next_event` speaks of: its one cycle, each of them
/// (`_a`), or some of them (`_e`).
#[derive(Clone, Copy, Debug, PartialEq, Eq, Hash)]
pub enum Reach {
    One,
    All,
    Some,
}

/// A formula of IEEE 1850-2010, 6.2.1. `strong` tells the strong form of an operator, which is
/// written with `!`, and `overlap` the form with `_`.
#[cycle(formula)]
#[derive(Debug, Drop)]
pub enum Formula {
    Bool(Expr),
    Not(Subformula),
    And(Subformula, Subformula),
    Or(Subformula, Subformula),
    Implies(Subformula, Subformula),
    Iff(Subformula, Subformula),
    Seq {
        sere: Sere,
        strong: bool,
    },
    /// `|->`, or `|=>` where the body starts in the later cycle.
    Suffix {
        sere: Sere,
        later: bool,
        body: Subformula,
    },
    Always(Subformula),
    Never(Subformula),
    Eventually(Subformula),
    Next {
        strong: bool,
        reach: Reach,
        low: u32,
        high: u32,
        body: Subformula,
    },
    /// `next_event`, over the occurrences of `on` from number `low` to number `high`.
    Event {
        on: Expr,
        strong: bool,
        reach: Reach,
        low: u32,
        high: u32,
        body: Subformula,
    },
    Until {
        strong: bool,
        overlap: bool,
        left: Subformula,
        right: Subformula,
    },
    Before {
        strong: bool,
        overlap: bool,
        left: Subformula,
        right: Subformula,
    },
    Abort(Subformula, Expr),
}

/// A part of a formula, on the heap.
#[cycle(formula)]
#[derive(Debug, Drop)]
pub struct Subformula {
    node: Box<Formula>,
}

impl Model for Subformula {
    ghost use Rattle.psl_model.specs.Formula as tree;
    ghost use Rattle.psl_model.specs.inner.Codes.{coded_formula};

    ghost Value = { tree.Formula };

    ghost coded = { coded_formula };

    ghost use Rattle.psl_model.specs.View.{formula_of};

    ghost view = { λ s. formula_of s.node.value };

    ghost size = { tree.formula_size };
}

impl Subformula {
    pub fn new(alloc: Global, formula: Formula) -> Result<Subformula, AllocError>
        ensures whole_tree { IfOk result (λ part. part ≡ formula_of formula) }
    {
        Ok(Subformula {
            node: Box::new(alloc, formula)?,
        })
    }

    pub fn get(&self) -> &Formula
        ensures whole_tree { formula_of result.now ≡ self.now }
    {
        &self.node
    }

    pub fn into_inner(self) -> Formula
        ensures whole_tree { formula_of result ≡ self }
    {
        let Subformula { node } = self;
        Box::into_inner(node)
    }
}
