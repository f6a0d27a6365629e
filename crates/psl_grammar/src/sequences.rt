//! Sequences as they are written.

ghost use Rattle.std.specs.Prelude.{◌≡◌, IfOk};
ghost use Rattle.psl_grammar.specs.View.{sere_of};

use crate::expressions::RawExpr;
use std::alloc::{AllocError, Global};
use std::marker::Model;

/// A repetition. A single count is `low` without `high`, and `inf` is a `high`.
#[derive(Clone, Copy, Debug)]
pub struct RawRep {
    pub mark: u32,
    pub low: Option<u32>,
    pub high: Option<u32>,
}

/// Each number is that of a token. Braces leave no node.
#[cycle(sere)]
#[derive(Debug, Drop)]
pub enum RawSere {
    Bool(RawExpr),
    /// The name of a sequence.
    Name(u32),
    /// A repetition that stands alone.
    Lone(RawRep),
    Repeat(RawSubsere, RawRep),
    Join {
        mark: u32,
        left: RawSubsere,
        right: RawSubsere,
    },
}

/// A part of a sequence, on the heap.
#[cycle(sere)]
#[derive(Debug, Drop)]
pub struct RawSubsere {
    node: Box<RawSere>,
}

impl Model for RawSubsere {
    ghost use Rattle.psl_grammar.specs.RawSere as tree;
    ghost use Rattle.psl_grammar.specs.inner.Codes.{coded_sere};

    ghost Value = { tree.RawSere };

    ghost coded = { coded_sere };

    ghost use Rattle.psl_grammar.specs.View.{sere_of};

    ghost view = { λ s. sere_of s.node.value };

    ghost size = { tree.sere_size };
}

impl RawSubsere {
    pub fn new(alloc: Global, sere: RawSere) -> Result<RawSubsere, AllocError>
        ensures whole_tree { IfOk result (λ part. part ≡ sere_of sere) }
    {
        Ok(RawSubsere {
            node: Box::new(alloc, sere)?,
        })
    }

    pub fn get(&self) -> &RawSere
        ensures whole_tree { sere_of result.now ≡ self.now }
    {
        &self.node
    }
}
