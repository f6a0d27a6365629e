//! The formulas that raw properties stand for, named sequences and properties put in place.

ghost use Rattle.std.specs.Prelude.{◌≡◌, IfOk, option_map};
ghost use Rattle.psl_model.specs.View.{expr_of, sere_of, formula_of};
ghost use Rattle.psl_model.specs.Formula as tree;
ghost use Rattle.unit_rules.specs.Source.{source};
ghost use Rattle.unit_rules.specs.Placed.{placed_prop};
ghost use Rattle.unit_rules.specs.Fitting.{AreSmallCounts, OnFits, PropFits};
ghost use Rattle.psl_grammar.specs.View.{prop_of, expr_of as raw_expr_of, sere_of as raw_sere_of};
ghost use Rattle.psl_grammar.specs.RawProp as raw;
ghost use Rattle.psl_units.specs.Trees.{first_cycle, last_cycle, prefixed, combined, is_later, next_for, expr_for};
ghost use Rattle.psl_units.specs.Trees.{formula_for};
ghost use Rattle.psl_units.specs.inner.Scopes.{IsScope, bodies_of};

use crate::expressions::{build_expr, small_number};
use crate::names::Scope;
use crate::sequences::build_sere;
use indexmap::IndexMap;
use psl_grammar::{RawExpr, RawProp, RawSere, RawSubprop};
use psl_lexer::{Key, Kind, Mark, Token};
use psl_model::{Expr, Formula, Name, Sere, Subformula};
use std::alloc::{AllocError, Global};
use unit_rules::operators::{is_strong_next, reach_of};
use unit_rules::source::{is_number, kind_at};

fn first_cycle(text: &[u8], tokens: &[Token], low: Option<u32>, high: Option<u32>) -> u32
    requires { AreSmallCounts (source text.now tokens.now) low high }
    ensures { result ≡ first_cycle (source text.now tokens.now) low }
{
    match low {
        None => 1,
        Some(low) => small_number(text, tokens, low),
    }
}

fn last_cycle(text: &[u8], tokens: &[Token], low: Option<u32>, high: Option<u32>) -> u32
    requires { AreSmallCounts (source text.now tokens.now) low high }
    ensures { result ≡ last_cycle (source text.now tokens.now) low high }
{
    let Some(low) = low else {
        return 1;
    };
    let Some(high) = high else {
        return small_number(text, tokens, low);
    };
    if is_number(kind_at(tokens, high)) {
        return small_number(text, tokens, high);
    }
    small_number(text, tokens, low)
}

fn prefixed(alloc: Global, kind: Kind, body: Formula) -> Result<Formula, AllocError>
    ensures { IfOk result (λ f. formula_of f ≡ prefixed kind (formula_of body)) }
{
    let body = Subformula::new(alloc, body)?;
    Ok(match kind {
        Kind::Word(Key::Always) => Formula::Always(body),
        Kind::Word(Key::Never) => Formula::Never(body),
        Kind::Word(Key::EventuallyStrong) => Formula::Eventually(body),
        _ => Formula::Not(body),
    })
}

fn until(strong: bool, overlap: bool, left: Subformula, right: Subformula) -> Formula
    ensures { formula_of result ≡ tree.until strong overlap left right }
{
    Formula::Until {
        strong,
        overlap,
        left,
        right,
    }
}

fn before(strong: bool, overlap: bool, left: Subformula, right: Subformula) -> Formula
    ensures { formula_of result ≡ tree.before strong overlap left right }
{
    Formula::Before {
        strong,
        overlap,
        left,
        right,
    }
}

fn combined_by(kind: Kind, left: Subformula, right: Subformula) -> Formula
    ensures { formula_of result ≡ combined kind left right }
{
    match kind {
        Kind::Mark(Mark::AndAnd) => Formula::And(left, right),
        Kind::Mark(Mark::OrOr) => Formula::Or(left, right),
        Kind::Mark(Mark::Arrow) => Formula::Implies(left, right),
        Kind::Mark(Mark::DoubleArrow) => Formula::Iff(left, right),
        Kind::Word(Key::Until) => until(false, false, left, right),
        Kind::Word(Key::UntilStrong) => until(true, false, left, right),
        Kind::Word(Key::UntilOverlapping) => until(false, true, left, right),
        Kind::Word(Key::UntilStrongOverlapping) => until(true, true, left, right),
        Kind::Word(Key::Before) => before(false, false, left, right),
        Kind::Word(Key::BeforeStrong) => before(true, false, left, right),
        Kind::Word(Key::BeforeOverlapping) => before(false, true, left, right),
        _ => before(true, true, left, right),
    }
}

fn combined(alloc: Global, kind: Kind, left: Formula, right: Formula) -> Result<Formula, AllocError>
    ensures { IfOk result (λ f. formula_of f ≡ combined kind (formula_of left) (formula_of right)) }
{
    let left = Subformula::new(alloc, left)?;
    let right = Subformula::new(alloc, right)?;
    Ok(combined_by(kind, left, right))
}

fn is_later(kind: Kind) -> bool
    ensures { result ≡ is_later kind }
{
    matches!(kind, Kind::Mark(Mark::SuffixNext))
}

fn suffix(alloc: Global, kind: Kind, sere: Sere, body: Formula) -> Result<Formula, AllocError>
    ensures { IfOk result (λ f. formula_of f ≡ tree.suffix (sere_of sere) (is_later kind) (formula_of body)) }
{
    let later = is_later(kind);
    let body = Subformula::new(alloc, body)?;
    Ok(Formula::Suffix { sere, later, body })
}

fn aborted(alloc: Global, body: Formula, on: Expr) -> Result<Formula, AllocError>
    ensures { IfOk result (λ f. formula_of f ≡ tree.abort (formula_of body) (expr_of on)) }
{
    Ok(Formula::Abort(Subformula::new(alloc, body)?, on))
}

fn next_for(
    alloc: Global,
    kind: Kind,
    on: Option<Expr>,
    low: u32,
    high: u32,
    body: Formula,
) -> Result<Formula, AllocError>
    ensures { IfOk result (λ f. formula_of f
        ≡ next_for kind (option_map expr_of on) low high (formula_of body)) }
{
    let strong = is_strong_next(kind);
    let reach = reach_of(kind);
    let body = Subformula::new(alloc, body)?;
    Ok(match on {
        None => Formula::Next {
            strong,
            reach,
            low,
            high,
            body,
        },
        Some(on) => Formula::Event {
            on,
            strong,
            reach,
            low,
            high,
            body,
        },
    })
}

fn build_on(
    alloc: Global,
    text: &[u8],
    tokens: &[Token],
    signals: &IndexMap<Name, u32>,
    on: &Option<RawExpr>,
) -> Result<Option<Expr>, AllocError>
    requires { OnFits (source text.now tokens.now) (option_map raw_expr_of on.now) }
    ensures { IfOk result (λ built. option_map expr_of built ≡ option_map
        (expr_for (source text.now tokens.now) signals.now.entries) (option_map raw_expr_of on.now)) }
{
    match on {
        None => Ok(None),
        Some(expr) => Ok(Some(build_expr(alloc, text, tokens, signals, expr)?)),
    }
}

/// The formula that a raw property stands for, where names stand for what the items before declare.
#[cycle(formula)]
pub fn build_formula(
    alloc: Global,
    text: &[u8],
    tokens: &[Token],
    signals: &IndexMap<Name, u32>,
    scope: &Scope,
    prop: &RawProp,
) -> Result<Formula, AllocError>
    requires scoped { IsScope (source text.now tokens.now) scope.now }
    requires fits { PropFits (source text.now tokens.now) (prop_of prop.now) }
    ensures { IfOk result (λ f. formula_of f ≡ formula_for (source text.now tokens.now) signals.now.entries
        (placed_prop (source text.now tokens.now) (bodies_of (source text.now tokens.now) scope.now)
        (prop_of prop.now))) }
{
    match prop {
        RawProp::Bool(expr) => Ok(Formula::Bool(build_expr(alloc, text, tokens, signals, expr)?)),
        RawProp::Name(token) => match scope.find_property(alloc, text, tokens, *token)? {
            Some((inner, body)) => build_formula(alloc, text, tokens, signals, &inner, body),
            None => Ok(Formula::Bool(Expr::Sized(1, 0))),
        },
        RawProp::Seq { body, strong } => {
            let sere = build_sere(alloc, text, tokens, signals, scope, body)?;
            Ok(Formula::Seq {
                sere,
                strong: *strong,
            })
        }
        RawProp::Prefix { word, body } => {
            let body = build_formula(alloc, text, tokens, signals, scope, body.get())?;
            prefixed(alloc, kind_at(tokens, *word), body)
        }
        RawProp::Next {
            word,
            on,
            low,
            high,
            body,
        } => {
            let range = (*low, *high);
            build_next(alloc, text, tokens, signals, scope, *word, on, range, body)
        }
        RawProp::Binary { mark, left, right } => {
            build_binary(alloc, text, tokens, signals, scope, *mark, left, right)
        }
        RawProp::Suffix { mark, left, body } => {
            build_suffix(alloc, text, tokens, signals, scope, *mark, left, body)
        }
        RawProp::Abort { body, on } => {
            build_abort(alloc, text, tokens, signals, scope, body, on)
        }
    }
}

#[cycle(formula)]
fn build_next(
    alloc: Global,
    text: &[u8],
    tokens: &[Token],
    signals: &IndexMap<Name, u32>,
    scope: &Scope,
    word: u32,
    on: &Option<RawExpr>,
    range: (Option<u32>, Option<u32>),
    body: &RawSubprop,
) -> Result<Formula, AllocError>
    requires scoped { IsScope (source text.now tokens.now) scope.now }
    requires fits { PropFits (source text.now tokens.now)
        (raw.next word (option_map raw_expr_of on.now) range.0 range.1 body.now) }
    ensures { IfOk result (λ f. formula_of f ≡ formula_for (source text.now tokens.now) signals.now.entries
        (placed_prop (source text.now tokens.now) (bodies_of (source text.now tokens.now) scope.now)
        (raw.next word (option_map raw_expr_of on.now) range.0 range.1 body.now))) }
{
    let on = build_on(alloc, text, tokens, signals, on)?;
    let first = first_cycle(text, tokens, range.0, range.1);
    let last = last_cycle(text, tokens, range.0, range.1);
    let body = build_formula(alloc, text, tokens, signals, scope, body.get())?;
    next_for(alloc, kind_at(tokens, word), on, first, last, body)
}

#[cycle(formula)]
fn build_binary(
    alloc: Global,
    text: &[u8],
    tokens: &[Token],
    signals: &IndexMap<Name, u32>,
    scope: &Scope,
    mark: u32,
    left: &RawSubprop,
    right: &RawSubprop,
) -> Result<Formula, AllocError>
    requires scoped { IsScope (source text.now tokens.now) scope.now }
    requires fits { PropFits (source text.now tokens.now) (raw.binary mark left.now right.now) }
    ensures { IfOk result (λ f. formula_of f ≡ formula_for (source text.now tokens.now) signals.now.entries
        (placed_prop (source text.now tokens.now) (bodies_of (source text.now tokens.now) scope.now)
        (raw.binary mark left.now right.now))) }
{
    let left = build_formula(alloc, text, tokens, signals, scope, left.get())?;
    let right = build_formula(alloc, text, tokens, signals, scope, right.get())?;
    combined(alloc, kind_at(tokens, mark), left, right)
}

#[cycle(formula)]
fn build_suffix(
    alloc: Global,
    text: &[u8],
    tokens: &[Token],
    signals: &IndexMap<Name, u32>,
    scope: &Scope,
    mark: u32,
    left: &RawSere,
    body: &RawSubprop,
) -> Result<Formula, AllocError>
    requires scoped { IsScope (source text.now tokens.now) scope.now }
    requires fits { PropFits (source text.now tokens.now) (raw.suffix mark (raw_sere_of left.now) body.now) }
    ensures { IfOk result (λ f. formula_of f ≡ formula_for (source text.now tokens.now) signals.now.entries
        (placed_prop (source text.now tokens.now) (bodies_of (source text.now tokens.now) scope.now)
        (raw.suffix mark (raw_sere_of left.now) body.now))) }
{
    let left = build_sere(alloc, text, tokens, signals, scope, left)?;
    let body = build_formula(alloc, text, tokens, signals, scope, body.get())?;
    suffix(alloc, kind_at(tokens, mark), left, body)
}

#[cycle(formula)]
fn build_abort(
    alloc: Global,
    text: &[u8],
    tokens: &[Token],
    signals: &IndexMap<Name, u32>,
    scope: &Scope,
    body: &RawSubprop,
    on: &RawExpr,
) -> Result<Formula, AllocError>
    requires scoped { IsScope (source text.now tokens.now) scope.now }
    requires fits { PropFits (source text.now tokens.now) (raw.abort body.now (raw_expr_of on.now)) }
    ensures { IfOk result (λ f. formula_of f ≡ formula_for (source text.now tokens.now) signals.now.entries
        (placed_prop (source text.now tokens.now) (bodies_of (source text.now tokens.now) scope.now)
        (raw.abort body.now (raw_expr_of on.now)))) }
{
    let body = build_formula(alloc, text, tokens, signals, scope, body.get())?;
    let on = build_expr(alloc, text, tokens, signals, on)?;
    aborted(alloc, body, on)
}
