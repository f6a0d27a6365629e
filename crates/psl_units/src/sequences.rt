//! The sequences that raw ones stand for, named ones put in place.

ghost use Rattle.std.specs.Prelude.{◌≡◌, IfOk};
ghost use Rattle.psl_model.specs.View.{sere_of};
ghost use Rattle.unit_rules.specs.Source.{source};
ghost use Rattle.unit_rules.specs.Placed.{placed_sere};
ghost use Rattle.unit_rules.specs.Fitting.{AreSmallCounts, SereFits};
ghost use Rattle.psl_grammar.specs.View.{sere_of as raw_sere_of};
ghost use Rattle.psl_units.specs.Trees.{low_count, high_count, default_low, default_high, repeated, joined, sere_for};
ghost use Rattle.psl_units.specs.inner.Scopes.{IsScope, bodies_of};

use crate::expressions::{build_expr, small_number};
use crate::names::Scope;
use indexmap::IndexMap;
use psl_grammar::RawSere;
use psl_lexer::{Key, Kind, Mark, Token};
use psl_model::{Expr, Name, Sere, Subsere};
use std::alloc::{AllocError, Global};
use unit_rules::source::{is_number, kind_at};

fn default_low(kind: Kind) -> u32
    ensures { result ≡ default_low kind }
{
    match kind {
        Kind::Mark(Mark::RepeatOpen) => 0,
        _ => 1,
    }
}

fn default_high(kind: Kind) -> Option<u32>
    ensures { result ≡ default_high kind }
{
    match kind {
        Kind::Mark(Mark::GotoOpen) => Some(1),
        _ => None,
    }
}

// The lower end of a repetition.
fn low_count(text: &[u8], tokens: &[Token], mark: u32, low: Option<u32>, high: Option<u32>) -> u32
    requires { AreSmallCounts (source text.now tokens.now) low high }
    ensures { result ≡ low_count (source text.now tokens.now) mark low }
{
    match low {
        None => default_low(kind_at(tokens, mark)),
        Some(low) => small_number(text, tokens, low),
    }
}

// The upper end of a repetition, where it has one.
fn high_count(
    text: &[u8],
    tokens: &[Token],
    mark: u32,
    low: Option<u32>,
    high: Option<u32>,
) -> Option<u32>
    requires { AreSmallCounts (source text.now tokens.now) low high }
    ensures { result ≡ high_count (source text.now tokens.now) mark low high }
{
    let Some(low) = low else {
        return default_high(kind_at(tokens, mark));
    };
    let Some(high) = high else {
        return Some(small_number(text, tokens, low));
    };
    if is_number(kind_at(tokens, high)) {
        return Some(small_number(text, tokens, high));
    }
    None
}

fn repeated(
    alloc: Global,
    kind: Kind,
    body: Sere,
    low: u32,
    high: Option<u32>,
) -> Result<Sere, AllocError>
    ensures { IfOk result (λ r. sere_of r ≡ repeated kind (sere_of body) low high) }
{
    match (kind, body) {
        (Kind::Mark(Mark::GotoOpen), Sere::Bool(expr)) => Ok(Sere::Goto(expr, low, high)),
        (Kind::Mark(Mark::EqualRepeatOpen), Sere::Bool(expr)) => Ok(Sere::Equal(expr, low, high)),
        (_, body) => Ok(Sere::Repeat(Subsere::new(alloc, body)?, low, high)),
    }
}

fn joined(alloc: Global, kind: Kind, left: Sere, right: Sere) -> Result<Sere, AllocError>
    ensures { IfOk result (λ r. sere_of r ≡ joined kind (sere_of left) (sere_of right)) }
{
    let left = Subsere::new(alloc, left)?;
    let right = Subsere::new(alloc, right)?;
    Ok(match kind {
        Kind::Mark(Mark::Colon) => Sere::Fuse(left, right),
        Kind::Mark(Mark::Or) => Sere::Or(left, right),
        Kind::Mark(Mark::AndAnd) => Sere::Both(left, right),
        Kind::Mark(Mark::And) => Sere::Meet(left, right),
        Kind::Word(Key::Within) => Sere::Within(left, right),
        _ => Sere::Then(left, right),
    })
}

/// The sequence that a raw one stands for, where names stand for what the items before declare.
pub fn build_sere(
    alloc: Global,
    text: &[u8],
    tokens: &[Token],
    signals: &IndexMap<Name, u32>,
    scope: &Scope,
    sere: &RawSere,
) -> Result<Sere, AllocError>
    requires scoped { IsScope (source text.now tokens.now) scope.now }
    requires fits { SereFits (source text.now tokens.now) (raw_sere_of sere.now) }
    ensures { IfOk result (λ r. sere_of r ≡ sere_for (source text.now tokens.now) signals.now.entries
        (placed_sere (source text.now tokens.now) (bodies_of (source text.now tokens.now) scope.now)
        (raw_sere_of sere.now))) }
{
    match sere {
        RawSere::Bool(expr) => Ok(Sere::Bool(build_expr(alloc, text, tokens, signals, expr)?)),
        RawSere::Name(token) => match scope.find_sequence(alloc, text, tokens, *token)? {
            Some((inner, body)) => build_sere(alloc, text, tokens, signals, &inner, body),
            None => Ok(Sere::Bool(Expr::Sized(1, 0))),
        },
        RawSere::Lone(rep) => {
            let low = low_count(text, tokens, rep.mark, rep.low, rep.high);
            let high = high_count(text, tokens, rep.mark, rep.low, rep.high);
            let body = Subsere::new(alloc, Sere::Bool(Expr::Sized(1, 1)))?;
            Ok(Sere::Repeat(body, low, high))
        }
        RawSere::Repeat(body, rep) => {
            let low = low_count(text, tokens, rep.mark, rep.low, rep.high);
            let high = high_count(text, tokens, rep.mark, rep.low, rep.high);
            let body = build_sere(alloc, text, tokens, signals, scope, body.get())?;
            repeated(alloc, kind_at(tokens, rep.mark), body, low, high)
        }
        RawSere::Join { mark, left, right } => {
            let left = build_sere(alloc, text, tokens, signals, scope, left.get())?;
            let right = build_sere(alloc, text, tokens, signals, scope, right.get())?;
            joined(alloc, kind_at(tokens, *mark), left, right)
        }
    }
}
