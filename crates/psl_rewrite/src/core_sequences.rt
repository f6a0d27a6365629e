//! Core sequences: those that every other sequence stands for.

ghost use Rattle.std.specs.Prelude.{◌≡◌, IfOk};
ghost use Rattle.psl_rewrite.specs.View.{core_of};

use psl_model::Expr;
use std::alloc::{AllocError, Global};
use std::marker::Model;

/// A sequence in as few forms as it takes.
#[cycle(core)]
#[derive(Debug, Drop)]
pub enum CoreSere {
    Bool(Expr),
    /// `[*0]`
    Empty,
    /// `;`
    Then(Subcore, Subcore),
    /// `:`
    Fuse(Subcore, Subcore),
    /// `|`
    Or(Subcore, Subcore),
    /// `&&`
    Both(Subcore, Subcore),
    /// `[*]`
    Star(Subcore),
    /// So many copies, joined by `;`.
    Power(Subcore, u32),
}

/// A part of a core sequence, on the heap.
#[cycle(core)]
#[derive(Debug, Drop)]
pub struct Subcore {
    node: Box<CoreSere>,
}

impl Model for Subcore {
    ghost use Rattle.psl_rewrite.specs.CoreSere as tree;
    ghost use Rattle.psl_rewrite.specs.inner.Codes.{coded_core};

    ghost Value = { tree.CoreSere };

    ghost coded = { coded_core };

    ghost use Rattle.psl_rewrite.specs.View.{core_of};

    ghost view = { λ s. core_of s.node.value };

    ghost size = { tree.core_size };
}

impl Subcore {
    pub fn new(alloc: Global, core: CoreSere) -> Result<Subcore, AllocError>
        ensures whole_tree { IfOk result (λ part. part ≡ core_of core) }
    {
        Ok(Subcore {
            node: Box::new(alloc, core)?,
        })
    }

    pub fn get(&self) -> &CoreSere
        ensures whole_tree { core_of result.now ≡ self.now }
    {
        &self.node
    }

    pub fn into_inner(self) -> CoreSere
        ensures whole_tree { core_of result ≡ self }
    {
        let Subcore { node } = self;
        Box::into_inner(node)
    }
}
