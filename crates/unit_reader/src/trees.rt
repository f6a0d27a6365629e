//! Nodes of the raw tree, made of what was read of their parts.

ghost use Rattle.std.specs.Prelude.{◌≡◌, IfOk};
ghost use Rattle.psl_grammar.specs.RawExpr as expr_tree;
ghost use Rattle.psl_grammar.specs.RawSere as sere_tree;
ghost use Rattle.psl_grammar.specs.RawProp as prop_tree;
ghost use Rattle.psl_grammar.specs.View.{expr_of, sere_of, prop_of};
ghost use Rattle.unit_reader.specs.inner.SereReaders.{repeated};
ghost use Rattle.unit_reader.specs.inner.ReadViews.{form_of, on_of};

use crate::next_forms::NextForm;
use psl_grammar::{RawExpr, RawProp, RawRep, RawSere, RawSubexpr, RawSubprop, RawSubsere};
use std::alloc::{AllocError, Global};

pub fn unary(alloc: Global, mark: u32, operand: RawExpr) -> Result<RawExpr, AllocError>
    ensures { IfOk result (λ e. expr_of e ≡ expr_tree.unary mark (expr_of operand)) }
{
    Ok(RawExpr::Unary(mark, RawSubexpr::new(alloc, operand)?))
}

pub fn binary(
    alloc: Global,
    mark: u32,
    left: RawExpr,
    right: RawExpr,
) -> Result<RawExpr, AllocError>
    ensures { IfOk result (λ e. expr_of e ≡ expr_tree.binary mark (expr_of left) (expr_of right)) }
{
    let left = RawSubexpr::new(alloc, left)?;
    let right = RawSubexpr::new(alloc, right)?;
    Ok(RawExpr::Binary { mark, left, right })
}

pub fn choice(
    alloc: Global,
    mark: u32,
    test: RawExpr,
    yes: RawExpr,
    no: RawExpr,
) -> Result<RawExpr, AllocError>
    ensures { IfOk result (λ e. expr_of e
        ≡ expr_tree.choice mark (expr_of test) (expr_of yes) (expr_of no)) }
{
    let test = RawSubexpr::new(alloc, test)?;
    let yes = RawSubexpr::new(alloc, yes)?;
    let no = RawSubexpr::new(alloc, no)?;
    Ok(RawExpr::Choice {
        mark,
        test,
        yes,
        no,
    })
}

pub fn repeated(alloc: Global, sere: RawSere, rep: RawRep) -> Result<RawSere, AllocError>
    ensures { IfOk result (λ s. sere_of s ≡ repeated (sere_of sere) rep) }
{
    Ok(RawSere::Repeat(RawSubsere::new(alloc, sere)?, rep))
}

pub fn joined(
    alloc: Global,
    mark: u32,
    left: RawSere,
    right: RawSere,
) -> Result<RawSere, AllocError>
    ensures { IfOk result (λ s. sere_of s ≡ sere_tree.join mark (sere_of left) (sere_of right)) }
{
    let left = RawSubsere::new(alloc, left)?;
    let right = RawSubsere::new(alloc, right)?;
    Ok(RawSere::Join { mark, left, right })
}

pub fn prefixed(alloc: Global, word: u32, body: RawProp) -> Result<RawProp, AllocError>
    ensures { IfOk result (λ p. prop_of p ≡ prop_tree.prefix word (prop_of body)) }
{
    let body = RawSubprop::new(alloc, body)?;
    Ok(RawProp::Prefix { word, body })
}

pub fn later(alloc: Global, word: u32, form: NextForm, body: RawProp) -> Result<RawProp, AllocError>
    ensures { IfOk result (λ p. prop_of p
        ≡ prop_tree.next word (on_of form.on) form.low form.high (prop_of body)) }
{
    let body = RawSubprop::new(alloc, body)?;
    let NextForm { on, low, high } = form;
    Ok(RawProp::Next {
        word,
        on,
        low,
        high,
        body,
    })
}

pub fn combined(
    alloc: Global,
    mark: u32,
    left: RawProp,
    right: RawProp,
) -> Result<RawProp, AllocError>
    ensures { IfOk result (λ p. prop_of p ≡ prop_tree.binary mark (prop_of left) (prop_of right)) }
{
    let left = RawSubprop::new(alloc, left)?;
    let right = RawSubprop::new(alloc, right)?;
    Ok(RawProp::Binary { mark, left, right })
}

pub fn suffixed(
    alloc: Global,
    mark: u32,
    left: RawSere,
    body: RawProp,
) -> Result<RawProp, AllocError>
    ensures { IfOk result (λ p. prop_of p ≡ prop_tree.suffix mark (sere_of left) (prop_of body)) }
{
    let body = RawSubprop::new(alloc, body)?;
    Ok(RawProp::Suffix { mark, left, body })
}

pub fn aborted(alloc: Global, body: RawProp, on: RawExpr) -> Result<RawProp, AllocError>
    ensures { IfOk result (λ p. prop_of p ≡ prop_tree.abort (prop_of body) (expr_of on)) }
{
    let body = RawSubprop::new(alloc, body)?;
    Ok(RawProp::Abort { body, on })
}
