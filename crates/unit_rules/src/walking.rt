//! The rules over a whole unit: each site in the order of reading.

ghost use Rattle.std.specs.Prelude.{◌≡◌, ◌&&◌, OnOk, IfOk, map, flat_map, option_map};
ghost use Rattle.unit_rules.specs.Source.{source, kind_at};
ghost use Rattle.unit_rules.specs.Operators.{bin_op_of};
ghost use Rattle.unit_rules.specs.Faults.{is_bare};
ghost use Rattle.psl_model.specs.Valid.{wants_width};
ghost use Rattle.unit_rules.specs.inner.Judging.{visit_all};
ghost use Rattle.unit_rules.specs.Sites.{expr_sites, count_sites, sere_sites, on_sites, prop_sites, span_sites};
ghost use Rattle.unit_rules.specs.Sites.{label_sites, item_sites, declared};
ghost use Rattle.unit_rules.specs.inner.WalkView.{state_of};
ghost use Rattle.psl_grammar.specs.View.{expr_of, sere_of, prop_of};
ghost use Rattle.psl_grammar.specs.UnitView.{item_of};

use crate::judging::declared_width;
use crate::operators::{bin_op_of, is_bare, is_bare_by, is_flip, un_op_of, wants_width};
use crate::source::{is_number, kind_at};
use crate::walk::Walk;
use psl_grammar::{RawExpr, RawItem, RawProp, RawSere};
use psl_lexer::Token;
use std::alloc::{AllocError, Global};

// Whether an operator stands between two operands without a width of their own, where it is refused.
fn is_constant(text: &[u8], tokens: &[Token], mark: u32, left_bare: bool, right: &RawExpr) -> bool
    ensures { result ≡ (wants_width (bin_op_of (kind_at (source text.now tokens.now) mark))
        && (left_bare && is_bare (source text.now tokens.now) (expr_of right.now))) }
{
    wants_width(bin_op_of(kind_at(tokens, mark))) && (left_bare && is_bare(text, tokens, right))
}

/// Visits the sites of an expression, and answers whether it is bare.
pub fn walk_expr(
    alloc: Global,
    text: &[u8],
    tokens: &[Token],
    walk: &mut Walk,
    expr: &RawExpr,
) -> Result<bool, AllocError>
    ensures visited { OnOk result (state_of walk.new
        ≡ visit_all (source text.now tokens.now) (state_of walk.old) (expr_sites (expr_of expr.now))) }
    ensures bare { IfOk result (λ bare. bare ≡ is_bare (source text.now tokens.now) (expr_of expr.now)) }
{
    match expr {
        RawExpr::Name { name, select } => {
            walk.used(alloc, text, tokens, *name, *select)?;
            Ok(false)
        }
        RawExpr::Literal(token) => {
            walk.literal(text, tokens, *token)?;
            Ok(is_number(kind_at(tokens, *token)))
        }
        RawExpr::Unary(mark, operand) => {
            let bare = walk_expr(alloc, text, tokens, walk, operand.get())?;
            Ok(is_flip(un_op_of(kind_at(tokens, *mark))) && bare)
        }
        RawExpr::Binary { mark, left, right } => {
            let left_bare = walk_expr(alloc, text, tokens, walk, left.get())?;
            let broken = is_constant(text, tokens, *mark, left_bare, right.get());
            walk.operator(*mark, broken)?;
            let right_bare = walk_expr(alloc, text, tokens, walk, right.get())?;
            Ok(is_bare_by(bin_op_of(kind_at(tokens, *mark)), left_bare, right_bare))
        }
        RawExpr::Choice { test, yes, no, .. } => {
            walk_expr(alloc, text, tokens, walk, test.get())?;
            let yes_bare = walk_expr(alloc, text, tokens, walk, yes.get())?;
            let no_bare = walk_expr(alloc, text, tokens, walk, no.get())?;
            Ok(yes_bare && no_bare)
        }
    }
}

fn walk_bool(
    alloc: Global,
    text: &[u8],
    tokens: &[Token],
    walk: &mut Walk,
    expr: &RawExpr,
) -> Result<(), AllocError>
    ensures { OnOk result (state_of walk.new
        ≡ visit_all (source text.now tokens.now) (state_of walk.old) (expr_sites (expr_of expr.now))) }
{
    walk_expr(alloc, text, tokens, walk, expr)?;
    Ok(())
}

fn walk_counts(
    text: &[u8],
    tokens: &[Token],
    walk: &mut Walk,
    mark: u32,
    low: Option<u32>,
    high: Option<u32>,
) -> Result<(), AllocError>
    ensures { OnOk result (state_of walk.new
        ≡ visit_all (source text.now tokens.now) (state_of walk.old) (count_sites mark low high)) }
{
    match low {
        Some(low) => walk.counts(text, tokens, mark, low, high),
        None => Ok(()),
    }
}

/// Visits the sites of a sequence.
pub fn walk_sere(
    alloc: Global,
    text: &[u8],
    tokens: &[Token],
    walk: &mut Walk,
    sere: &RawSere,
) -> Result<(), AllocError>
    ensures { OnOk result (state_of walk.new
        ≡ visit_all (source text.now tokens.now) (state_of walk.old) (sere_sites (sere_of sere.now))) }
{
    match sere {
        RawSere::Bool(expr) => walk_bool(alloc, text, tokens, walk, expr),
        RawSere::Name(_) => Ok(()),
        RawSere::Lone(rep) => walk_counts(text, tokens, walk, rep.mark, rep.low, rep.high),
        RawSere::Repeat(body, rep) => {
            walk_sere(alloc, text, tokens, walk, body.get())?;
            walk_counts(text, tokens, walk, rep.mark, rep.low, rep.high)
        }
        RawSere::Join { left, right, .. } => {
            walk_sere(alloc, text, tokens, walk, left.get())?;
            walk_sere(alloc, text, tokens, walk, right.get())
        }
    }
}

fn walk_on(
    alloc: Global,
    text: &[u8],
    tokens: &[Token],
    walk: &mut Walk,
    on: &Option<RawExpr>,
) -> Result<(), AllocError>
    ensures { OnOk result (state_of walk.new
        ≡ visit_all (source text.now tokens.now) (state_of walk.old) (on_sites (option_map expr_of on.now))) }
{
    match on {
        Some(expr) => walk_bool(alloc, text, tokens, walk, expr),
        None => Ok(()),
    }
}

/// Visits the sites of a property.
pub fn walk_prop(
    alloc: Global,
    text: &[u8],
    tokens: &[Token],
    walk: &mut Walk,
    prop: &RawProp,
) -> Result<(), AllocError>
    ensures { OnOk result (state_of walk.new
        ≡ visit_all (source text.now tokens.now) (state_of walk.old) (prop_sites (prop_of prop.now))) }
{
    match prop {
        RawProp::Bool(expr) => walk_bool(alloc, text, tokens, walk, expr),
        RawProp::Name(_) => Ok(()),
        RawProp::Seq { body, .. } => walk_sere(alloc, text, tokens, walk, body),
        RawProp::Prefix { body, .. } => walk_prop(alloc, text, tokens, walk, body.get()),
        RawProp::Next {
            word,
            on,
            low,
            high,
            body,
        } => {
            walk_on(alloc, text, tokens, walk, on)?;
            walk_counts(text, tokens, walk, *word, *low, *high)?;
            walk_prop(alloc, text, tokens, walk, body.get())
        }
        RawProp::Binary { left, right, .. } => {
            walk_prop(alloc, text, tokens, walk, left.get())?;
            walk_prop(alloc, text, tokens, walk, right.get())
        }
        RawProp::Suffix { left, body, .. } => {
            walk_sere(alloc, text, tokens, walk, left)?;
            walk_prop(alloc, text, tokens, walk, body.get())
        }
        RawProp::Abort { body, on } => {
            walk_prop(alloc, text, tokens, walk, body.get())?;
            walk_bool(alloc, text, tokens, walk, on)
        }
    }
}

fn walk_span(
    text: &[u8],
    tokens: &[Token],
    walk: &mut Walk,
    range: Option<(u32, u32)>,
) -> Result<(), AllocError>
    ensures { OnOk result (state_of walk.new
        ≡ visit_all (source text.now tokens.now) (state_of walk.old) (span_sites range)) }
{
    match range {
        Some((high, low)) => walk.span(text, tokens, high, low),
        None => Ok(()),
    }
}

fn walk_names(
    alloc: Global,
    text: &[u8],
    tokens: &[Token],
    walk: &mut Walk,
    range: Option<(u32, u32)>,
    names: &[u32],
) -> Result<(), AllocError>
    ensures { OnOk result (state_of walk.new
        ≡ visit_all (source text.now tokens.now) (state_of walk.old) (map (λ token. declared token range) names.now)) }
{
    let width = declared_width(text, tokens, range);
    for name in names {
        walk.declared(alloc, text, tokens, *name, range, width)?;
    }
    Ok(())
}

fn walk_label(
    alloc: Global,
    text: &[u8],
    tokens: &[Token],
    walk: &mut Walk,
    label: Option<u32>,
) -> Result<(), AllocError>
    ensures { OnOk result (state_of walk.new
        ≡ visit_all (source text.now tokens.now) (state_of walk.old) (label_sites label)) }
{
    match label {
        Some(token) => walk.label(alloc, text, tokens, token),
        None => Ok(()),
    }
}

/// Visits the sites of an item.
pub fn walk_item(
    alloc: Global,
    text: &[u8],
    tokens: &[Token],
    walk: &mut Walk,
    item: &RawItem,
) -> Result<(), AllocError>
    ensures { OnOk result (state_of walk.new
        ≡ visit_all (source text.now tokens.now) (state_of walk.old) (item_sites (item_of item.now))) }
{
    match item {
        RawItem::Clock(_) => Ok(()),
        RawItem::Wire { range, names } => {
            walk_span(text, tokens, walk, *range)?;
            walk_names(alloc, text, tokens, walk, *range, names.as_slice())
        }
        RawItem::Sequence { name, body } => {
            walk.phrase(alloc, text, tokens, *name)?;
            walk_sere(alloc, text, tokens, walk, body)
        }
        RawItem::Property { name, body } => {
            walk.phrase(alloc, text, tokens, *name)?;
            walk_prop(alloc, text, tokens, walk, body)
        }
        RawItem::Assert {
            word,
            label,
            body,
            ..
        } => {
            walk_label(alloc, text, tokens, walk, *label)?;
            walk.directive(text, tokens, *word)?;
            walk_prop(alloc, text, tokens, walk, body)
        }
    }
}

/// Visits the sites of items.
pub fn walk_items(
    alloc: Global,
    text: &[u8],
    tokens: &[Token],
    walk: &mut Walk,
    items: &[RawItem],
) -> Result<(), AllocError>
    ensures { OnOk result (state_of walk.new
        ≡ visit_all (source text.now tokens.now) (state_of walk.old)
        (flat_map (λ item. item_sites (item_of item)) items.now)) }
{
    for item in items {
        walk_item(alloc, text, tokens, walk, item)?;
    }
    Ok(())
}
