//! Base formulas: those that each formula of the simple subset is rewritten to.

ghost use Rattle.std.specs.Prelude.{◌≡◌, IfOk};
ghost use Rattle.psl_rewrite.specs.View.{base_of};

use psl_model::{Expr, Sere};
use std::alloc::{AllocError, Global};
use std::marker::Model;

/// A formula of the simple subset in as few forms as it takes. `strong` tells the strong form of an
/// operator. Ranges go from `low` to `high`, both included.
#[cycle(base)]
#[derive(Debug, Drop)]
pub enum Base {
    Bool(Expr),
    And(Subbase, Subbase),
    /// A Boolean or a formula.
    OrBool(Expr, Subbase),
    /// A Boolean implies a formula.
    Implies(Expr, Subbase),
    Always(Subbase),
    /// The body, so many cycles later.
    Next {
        strong: bool,
        count: u32,
        body: Subbase,
    },
    /// The body in each cycle of a range.
    NextAll {
        strong: bool,
        low: u32,
        high: u32,
        body: Subbase,
    },
    /// A Boolean in some cycle of a range.
    NextSome {
        strong: bool,
        low: u32,
        high: u32,
        seen: Expr,
    },
    /// The body up to the cycle before a Boolean.
    Until {
        strong: bool,
        body: Subbase,
        stop: Expr,
    },
    /// The body at each of a range of the cycles with a Boolean.
    Event {
        strong: bool,
        on: Expr,
        low: u32,
        high: u32,
        body: Subbase,
    },
    /// A Boolean at some of a range of the cycles with another.
    EventSome {
        strong: bool,
        on: Expr,
        low: u32,
        high: u32,
        seen: Expr,
    },
    Seq {
        sere: Sere,
        strong: bool,
    },
    /// A sequence from some cycle on.
    Eventually(Sere),
    /// The body from each end of the sequence on.
    Suffix(Sere, Subbase),
    Abort(Subbase, Expr),
}

/// A part of a base formula, on the heap.
#[cycle(base)]
#[derive(Debug, Drop)]
pub struct Subbase {
    node: Box<Base>,
}

impl Model for Subbase {
    ghost use Rattle.psl_rewrite.specs.Base as tree;
    ghost use Rattle.psl_rewrite.specs.inner.Codes.{coded_base};

    ghost Value = { tree.Base };

    ghost coded = { coded_base };

    ghost use Rattle.psl_rewrite.specs.View.{base_of};

    ghost view = { λ s. base_of s.node.value };

    ghost size = { tree.base_size };
}

impl Subbase {
    pub fn new(alloc: Global, base: Base) -> Result<Subbase, AllocError>
        ensures whole_tree { IfOk result (λ part. part ≡ base_of base) }
    {
        Ok(Subbase {
            node: Box::new(alloc, base)?,
        })
    }

    pub fn get(&self) -> &Base
        ensures whole_tree { base_of result.now ≡ self.now }
    {
        &self.node
    }

    pub fn into_inner(self) -> Base
        ensures whole_tree { base_of result ≡ self }
    {
        let Subbase { node } = self;
        Box::into_inner(node)
    }
}
