//! Properties as they are written.

ghost use Rattle.std.specs.Prelude.{◌≡◌, IfOk};
ghost use Rattle.psl_grammar.specs.View.{prop_of};

use crate::expressions::RawExpr;
use crate::sequences::RawSere;
use std::alloc::{AllocError, Global};
use std::marker::Model;

/// Each number is that of a token. Parentheses leave no node.
#[cycle(prop)]
#[derive(Debug, Drop)]
pub enum RawProp {
    Bool(RawExpr),
    /// The name of a property.
    Name(u32),
    Seq {
        body: RawSere,
        strong: bool,
    },
    /// `!`, `always`, `never` or `eventually!`.
    Prefix {
        word: u32,
        body: RawSubprop,
    },
    /// The other words of `next` and `next_event`.
    Next {
        word: u32,
        on: Option<RawExpr>,
        low: Option<u32>,
        high: Option<u32>,
        body: RawSubprop,
    },
    Binary {
        mark: u32,
        left: RawSubprop,
        right: RawSubprop,
    },
    Suffix {
        mark: u32,
        left: RawSere,
        body: RawSubprop,
    },
    Abort {
        body: RawSubprop,
        on: RawExpr,
    },
}

/// A part of a property, on the heap.
#[cycle(prop)]
#[derive(Debug, Drop)]
pub struct RawSubprop {
    node: Box<RawProp>,
}

impl Model for RawSubprop {
    ghost use Rattle.psl_grammar.specs.RawProp as tree;
    ghost use Rattle.psl_grammar.specs.inner.Codes.{coded_prop};

    ghost Value = { tree.RawProp };

    ghost coded = { coded_prop };

    ghost use Rattle.psl_grammar.specs.View.{prop_of};

    ghost view = { λ s. prop_of s.node.value };

    ghost size = { tree.prop_size };
}

impl RawSubprop {
    pub fn new(alloc: Global, prop: RawProp) -> Result<RawSubprop, AllocError>
        ensures whole_tree { IfOk result (λ part. part ≡ prop_of prop) }
    {
        Ok(RawSubprop {
            node: Box::new(alloc, prop)?,
        })
    }

    pub fn get(&self) -> &RawProp
        ensures whole_tree { prop_of result.now ≡ self.now }
    {
        &self.node
    }
}
