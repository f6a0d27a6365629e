//! Raw trees as texts: an operator stands before its operands, in `( )` for an expression, `{ }` for a sequence and
//! `[ ]` for a property; `{s}` is a sequence's name and `<p>` a property's.

use psl_grammar::{RawExpr, RawItem, RawProp, RawRep, RawSere, RawUnit};
use psl_lexer::Token;
use std::alloc::{AllocError, Global};

fn put_token(
    out: &mut Vec<u8>,
    text: &[u8],
    tokens: &[Token],
    number: u32,
) -> Result<(), AllocError> {
    match tokens.get(number as usize) {
        None => Ok(()),
        Some(token) => put_bytes(out, text, *token),
    }
}

fn put_bytes(out: &mut Vec<u8>, text: &[u8], token: Token) -> Result<(), AllocError> {
    let (start, end) = (token.start as usize, token.end as usize);
    if end < start || text.len() < end {
        return Ok(());
    }
    out.extend_from_slice(&text[start..end])
}

/// A mark or a word behind a bracket, and a blank.
fn put_head(
    out: &mut Vec<u8>,
    bracket: &[u8],
    text: &[u8],
    tokens: &[Token],
    mark: u32,
) -> Result<(), AllocError> {
    out.extend_from_slice(bracket)?;
    put_token(out, text, tokens, mark)?;
    out.extend_from_slice(b" ")
}

/// A number that may be absent, behind some bytes.
fn put_option(
    out: &mut Vec<u8>,
    before: &[u8],
    text: &[u8],
    tokens: &[Token],
    number: Option<u32>,
) -> Result<(), AllocError> {
    match number {
        None => Ok(()),
        Some(token) => {
            out.extend_from_slice(before)?;
            put_token(out, text, tokens, token)
        }
    }
}

fn put_name(
    out: &mut Vec<u8>,
    text: &[u8],
    tokens: &[Token],
    name: u32,
    select: Option<(u32, Option<u32>)>,
) -> Result<(), AllocError> {
    put_token(out, text, tokens, name)?;
    match select {
        None => Ok(()),
        Some((high, low)) => {
            put_option(out, b"[", text, tokens, Some(high))?;
            put_option(out, b":", text, tokens, low)?;
            out.extend_from_slice(b"]")
        }
    }
}

pub fn put_expr(
    out: &mut Vec<u8>,
    text: &[u8],
    tokens: &[Token],
    expr: &RawExpr,
) -> Result<(), AllocError> {
    match expr {
        RawExpr::Name { name, select } => put_name(out, text, tokens, *name, *select),
        RawExpr::Literal(token) => put_token(out, text, tokens, *token),
        RawExpr::Unary(mark, operand) => {
            put_head(out, b"(", text, tokens, *mark)?;
            put_expr(out, text, tokens, operand.get())?;
            out.extend_from_slice(b")")
        }
        RawExpr::Binary { mark, left, right } => {
            put_head(out, b"(", text, tokens, *mark)?;
            put_expr(out, text, tokens, left.get())?;
            out.extend_from_slice(b" ")?;
            put_expr(out, text, tokens, right.get())?;
            out.extend_from_slice(b")")
        }
        RawExpr::Choice {
            mark,
            test,
            yes,
            no,
        } => {
            put_head(out, b"(", text, tokens, *mark)?;
            put_expr(out, text, tokens, test.get())?;
            out.extend_from_slice(b" ")?;
            put_expr(out, text, tokens, yes.get())?;
            out.extend_from_slice(b" ")?;
            put_expr(out, text, tokens, no.get())?;
            out.extend_from_slice(b")")
        }
    }
}

fn put_counts(
    out: &mut Vec<u8>,
    text: &[u8],
    tokens: &[Token],
    rep: RawRep,
) -> Result<(), AllocError> {
    put_option(out, b" ", text, tokens, rep.low)?;
    put_option(out, b" ", text, tokens, rep.high)?;
    out.extend_from_slice(b"}")
}

pub fn put_sere(
    out: &mut Vec<u8>,
    text: &[u8],
    tokens: &[Token],
    sere: &RawSere,
) -> Result<(), AllocError> {
    match sere {
        RawSere::Bool(expr) => put_expr(out, text, tokens, expr),
        RawSere::Name(name) => {
            put_option(out, b"{", text, tokens, Some(*name))?;
            out.extend_from_slice(b"}")
        }
        RawSere::Lone(rep) => {
            put_option(out, b"{", text, tokens, Some(rep.mark))?;
            put_counts(out, text, tokens, *rep)
        }
        RawSere::Repeat(body, rep) => {
            put_head(out, b"{", text, tokens, rep.mark)?;
            put_sere(out, text, tokens, body.get())?;
            put_counts(out, text, tokens, *rep)
        }
        RawSere::Join { mark, left, right } => {
            put_head(out, b"{", text, tokens, *mark)?;
            put_sere(out, text, tokens, left.get())?;
            out.extend_from_slice(b" ")?;
            put_sere(out, text, tokens, right.get())?;
            out.extend_from_slice(b"}")
        }
    }
}

fn put_strength(out: &mut Vec<u8>, strong: bool) -> Result<(), AllocError> {
    if strong {
        return out.extend_from_slice(b" !]");
    }
    out.extend_from_slice(b"]")
}

/// The word of a form of `next`, its Boolean and its counts.
fn put_form(
    out: &mut Vec<u8>,
    text: &[u8],
    tokens: &[Token],
    word: u32,
    on: &Option<RawExpr>,
    low: Option<u32>,
    high: Option<u32>,
) -> Result<(), AllocError> {
    put_head(out, b"[", text, tokens, word)?;
    if let Some(expr) = on {
        put_expr(out, text, tokens, expr)?;
        out.extend_from_slice(b" ")?;
    }
    put_option(out, b"", text, tokens, low)?;
    put_option(out, b" ", text, tokens, high)?;
    if low.is_some() {
        return out.extend_from_slice(b" ");
    }
    Ok(())
}

pub fn put_prop(
    out: &mut Vec<u8>,
    text: &[u8],
    tokens: &[Token],
    prop: &RawProp,
) -> Result<(), AllocError> {
    match prop {
        RawProp::Bool(expr) => put_expr(out, text, tokens, expr),
        RawProp::Name(name) => {
            put_option(out, b"<", text, tokens, Some(*name))?;
            out.extend_from_slice(b">")
        }
        RawProp::Seq { body, strong } => {
            out.extend_from_slice(b"[")?;
            put_sere(out, text, tokens, body)?;
            put_strength(out, *strong)
        }
        RawProp::Prefix { word, body } => {
            put_head(out, b"[", text, tokens, *word)?;
            put_prop(out, text, tokens, body.get())?;
            out.extend_from_slice(b"]")
        }
        RawProp::Next {
            word,
            on,
            low,
            high,
            body,
        } => {
            put_form(out, text, tokens, *word, on, *low, *high)?;
            put_prop(out, text, tokens, body.get())?;
            out.extend_from_slice(b"]")
        }
        RawProp::Binary { mark, left, right } => {
            put_head(out, b"[", text, tokens, *mark)?;
            put_prop(out, text, tokens, left.get())?;
            out.extend_from_slice(b" ")?;
            put_prop(out, text, tokens, right.get())?;
            out.extend_from_slice(b"]")
        }
        RawProp::Suffix { mark, left, body } => {
            put_head(out, b"[", text, tokens, *mark)?;
            put_sere(out, text, tokens, left)?;
            out.extend_from_slice(b" ")?;
            put_prop(out, text, tokens, body.get())?;
            out.extend_from_slice(b"]")
        }
        RawProp::Abort { body, on } => {
            out.extend_from_slice(b"[abort ")?;
            put_prop(out, text, tokens, body.get())?;
            out.extend_from_slice(b" ")?;
            put_expr(out, text, tokens, on)?;
            out.extend_from_slice(b"]")
        }
    }
}

fn put_wire(
    out: &mut Vec<u8>,
    text: &[u8],
    tokens: &[Token],
    range: Option<(u32, u32)>,
    names: &[u32],
) -> Result<(), AllocError> {
    out.extend_from_slice(b"wire")?;
    if let Some((first, last)) = range {
        put_option(out, b" ", text, tokens, Some(first))?;
        put_option(out, b":", text, tokens, Some(last))?;
    }
    for name in names {
        put_option(out, b" ", text, tokens, Some(*name))?;
    }
    Ok(())
}

fn put_assert(
    out: &mut Vec<u8>,
    text: &[u8],
    tokens: &[Token],
    label: Option<u32>,
    body: &RawProp,
    report: Option<u32>,
) -> Result<(), AllocError> {
    put_option(out, b"", text, tokens, label)?;
    if label.is_some() {
        out.extend_from_slice(b": ")?;
    }
    out.extend_from_slice(b"assert ")?;
    put_prop(out, text, tokens, body)?;
    put_option(out, b" report ", text, tokens, report)
}

fn put_item(
    out: &mut Vec<u8>,
    text: &[u8],
    tokens: &[Token],
    item: &RawItem,
) -> Result<(), AllocError> {
    match item {
        RawItem::Clock(name) => put_option(out, b"clock ", text, tokens, Some(*name)),
        RawItem::Wire { range, names } => put_wire(out, text, tokens, *range, names.as_slice()),
        RawItem::Sequence { name, body } => {
            put_option(out, b"sequence ", text, tokens, Some(*name))?;
            out.extend_from_slice(b" = ")?;
            put_sere(out, text, tokens, body)
        }
        RawItem::Property { name, body } => {
            put_option(out, b"property ", text, tokens, Some(*name))?;
            out.extend_from_slice(b" = ")?;
            put_prop(out, text, tokens, body)
        }
        RawItem::Assert {
            label,
            body,
            report,
            ..
        } => put_assert(out, text, tokens, *label, body, *report),
    }
}

/// The unit's name and its items, each with a `;`.
pub fn unit_text(
    alloc: Global,
    text: &[u8],
    tokens: &[Token],
    unit: &RawUnit,
) -> Result<Vec<u8>, AllocError> {
    let mut out = Vec::new(alloc);
    put_token(&mut out, text, tokens, unit.name)?;
    out.extend_from_slice(b":")?;
    for item in &unit.items {
        out.extend_from_slice(b" ")?;
        put_item(&mut out, text, tokens, item)?;
        out.extend_from_slice(b";")?;
    }
    Ok(out)
}
