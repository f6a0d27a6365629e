//! What goes on with a phrase that was read and holds no property.

ghost use Rattle.std.specs.Prelude.{option_map, ◌≡◌, ◌<◌, ◌≤◌, ◌+◌, suc, true, false, length, IfOk};
ghost use Rattle.psl_grammar.specs.Symbols.{symbol_at};
ghost use Rattle.psl_grammar.specs.RawProp as raw;
ghost use Rattle.psl_grammar.specs.View.{expr_of, sere_of, prop_of};
ghost use Rattle.unit_reader.specs.inner.Answers.{Gives};
ghost use Rattle.unit_reader.specs.inner.ReadViews.{prop_read};
ghost use Rattle.unit_reader.specs.inner.Steps.{is_at, loop};
ghost use Rattle.unit_reader.specs.inner.PropReaders.{sequence_of, negation, combination, is_rep, goes_at, marked};
ghost use Rattle.unit_reader.specs.inner.PropReaders.{tighter_of, branches_of, times_of, abort_with, aborts_from};
ghost use Rattle.unit_reader.specs.inner.PropReaders.{settled};

use crate::errors::ParseError;
use crate::expressions::{read_bool, read_branches, read_levels};
use crate::sequences::read_after_bool;
use crate::symbols::{is_at, is_rep, symbol_at};
use crate::trees::{aborted, binary, combined, prefixed, unary};
use psl_grammar::{RawProp, RawSere, Symbol};
use std::alloc::{AllocError, Global};

/// A sequence without `!`.
pub fn as_sequence(prop: RawProp) -> Option<RawSere>
    ensures { sequence_of (prop_of prop) ≡ option_map sere_of result }
{
    match prop {
        RawProp::Seq {
            body,
            strong: false,
        } => Some(body),
        _ => None,
    }
}

/// `!` before a phrase.
pub fn negate(alloc: Global, mark: u32, body: RawProp) -> Result<RawProp, AllocError>
    ensures { IfOk result (λ p. prop_of p ≡ negation mark (prop_of body)) }
{
    match body {
        RawProp::Bool(expr) => {
            let whole = unary(alloc, mark, expr)?;
            Ok(RawProp::Bool(whole))
        }
        other => prefixed(alloc, mark, other),
    }
}

/// `&&` or `||` between two phrases.
pub fn combine(
    alloc: Global,
    mark: u32,
    left: RawProp,
    right: RawProp,
) -> Result<RawProp, AllocError>
    ensures { IfOk result (λ p. prop_of p ≡ combination mark (prop_of left) (prop_of right)) }
{
    match (left, right) {
        (RawProp::Bool(left), RawProp::Bool(right)) => {
            let whole = binary(alloc, mark, left, right)?;
            Ok(RawProp::Bool(whole))
        }
        (left, right) => combined(alloc, mark, left, right),
    }
}

/// A sequence that was read, with `!` or without.
#[tactic(auto, using(crate::proofs::Loops::stopped), unfolding(crate::specs::inner::PropReaders::marked))]
pub fn read_marked(
    symbols: &[Symbol],
    sere: RawSere,
    end: u32,
) -> Result<(RawProp, u32), ParseError>
    requires few { length symbols.now ≤ 1048576 }
    requires within { end ≤ length symbols.now }
    ensures gives { Gives prop_read result (marked symbols.now (sere_of sere, end)) }
    ensures some { IfOk result (λ read. end ≤ read.1) }
    ensures end { IfOk result (λ read. read.1 ≤ length symbols.now) }
{
    if is_at(symbols, end, Symbol::Exclamation) {
        let strong = true;
        return Ok((RawProp::Seq { body: sere, strong }, end + 1));
    }
    let strong = false;
    Ok((RawProp::Seq { body: sere, strong }, end))
}

/// What joins more tightly than `&&` behind a phrase.
#[tactic(auto, using(crate::proofs::Loops::stopped), unfolding(crate::specs::inner::PropReaders::tighter_of))]
pub fn read_tighter(
    alloc: Global,
    symbols: &[Symbol],
    room: u32,
    prop: RawProp,
    end: u32,
) -> Result<(RawProp, u32), ParseError>
    requires few { length symbols.now ≤ 1048576 }
    requires within { end ≤ length symbols.now }
    requires room { room ≤ 64 }
    ensures gives { Gives prop_read result (tighter_of symbols.now room (prop_of prop) end) }
    ensures some { IfOk result (λ read. end ≤ read.1) }
    ensures end { IfOk result (λ read. read.1 ≤ length symbols.now) }
{
    match prop {
        RawProp::Bool(expr) => {
            let (whole, to) = read_levels(alloc, symbols, room, false, 7, expr, end)?;
            Ok((RawProp::Bool(whole), to))
        }
        other => Ok((other, end)),
    }
}

/// The branches of a choice behind a phrase.
#[tactic(auto, using(crate::proofs::Loops::stopped), unfolding(crate::specs::inner::PropReaders::branches_of))]
fn read_choices(
    alloc: Global,
    symbols: &[Symbol],
    room: u32,
    prop: RawProp,
    end: u32,
) -> Result<(RawProp, u32), ParseError>
    requires few { length symbols.now ≤ 1048576 }
    requires within { end ≤ length symbols.now }
    requires room { room ≤ 64 }
    ensures gives { Gives prop_read result (branches_of symbols.now room (prop_of prop) end) }
    ensures some { IfOk result (λ read. end ≤ read.1) }
    ensures end { IfOk result (λ read. read.1 ≤ length symbols.now) }
{
    match prop {
        RawProp::Bool(expr) => {
            let (whole, to) = read_branches(alloc, symbols, room, false, expr, end)?;
            Ok((RawProp::Bool(whole), to))
        }
        other => Ok((other, end)),
    }
}

/// The repetitions behind a phrase, and `!`.
#[tactic(auto, using(crate::proofs::Loops::stopped), unfolding(crate::specs::inner::PropReaders::times_of))]
fn read_times_of(
    alloc: Global,
    symbols: &[Symbol],
    prop: RawProp,
    end: u32,
) -> Result<(RawProp, u32), ParseError>
    requires few { length symbols.now ≤ 1048576 }
    requires within { end ≤ length symbols.now }
    ensures gives { Gives prop_read result (times_of symbols.now (prop_of prop) end) }
    ensures some { IfOk result (λ read. end ≤ read.1) }
    ensures end { IfOk result (λ read. read.1 ≤ length symbols.now) }
{
    match prop {
        RawProp::Bool(expr) => {
            if !is_rep(symbol_at(symbols, end)) {
                return Ok((RawProp::Bool(expr), end));
            }
            let (sere, after) = read_after_bool(alloc, symbols, expr, end)?;
            read_marked(symbols, sere, after)
        }
        other => Ok((other, end)),
    }
}

/// `abort` and its Boolean, behind a phrase.
#[tactic(auto, using(crate::proofs::Loops::stopped), unfolding(crate::specs::inner::PropReaders::abort_with))]
fn read_abort(
    alloc: Global,
    symbols: &[Symbol],
    room: u32,
    prop: RawProp,
    end: u32,
) -> Result<(RawProp, u32), ParseError>
    requires few { length symbols.now ≤ 1048576 }
    requires within { end ≤ length symbols.now }
    requires room { room ≤ 64 }
    requires begun { end < length symbols.now }
    ensures gives { Gives prop_read result (abort_with symbols.now room (prop_of prop, end)) }
    ensures some { IfOk result (λ read. end < read.1) }
    ensures end { IfOk result (λ read. read.1 ≤ length symbols.now) }
{
    let (on, to) = read_bool(alloc, symbols, room, false, end + 1)?;
    let whole = aborted(alloc, prop, on)?;
    Ok((whole, to))
}

/// The aborts behind a phrase.
#[tactic(auto, using(crate::proofs::Loops::stopped), unfolding(crate::specs::inner::PropReaders::aborts_from))]
fn read_aborts(
    alloc: Global,
    symbols: &[Symbol],
    room: u32,
    prop: RawProp,
    end: u32,
) -> Result<(RawProp, u32), ParseError>
    requires few { length symbols.now ≤ 1048576 }
    requires within { end ≤ length symbols.now }
    requires room { room ≤ 64 }
    ensures gives { Gives prop_read result (aborts_from symbols.now room (prop_of prop, end)) }
    ensures some { IfOk result (λ read. end ≤ read.1) }
    ensures end { IfOk result (λ read. read.1 ≤ length symbols.now) }
{
    let mut body = prop;
    let mut to = end;
    'aborts: while is_at(symbols, to, Symbol::Abort) {
        match read_abort(alloc, symbols, room, body, to) {
            Ok((whole, after)) => {
                body = whole;
                to = after;
            }
            Err(error) => return Err(error),
        }
    }
    Ok((body, to))
}

/// What follows a phrase that `||` doesn't go on with: a choice, repetitions and aborts.
#[tactic(auto, using(crate::proofs::Loops::stopped), unfolding(crate::specs::inner::PropReaders::settled))]
pub fn read_settled(
    alloc: Global,
    symbols: &[Symbol],
    room: u32,
    prop: RawProp,
    end: u32,
) -> Result<(RawProp, u32), ParseError>
    requires few { length symbols.now ≤ 1048576 }
    requires within { end ≤ length symbols.now }
    requires room { room ≤ 64 }
    ensures gives { Gives prop_read result (settled symbols.now room (prop_of prop, end)) }
    ensures some { IfOk result (λ read. end ≤ read.1) }
    ensures end { IfOk result (λ read. read.1 ≤ length symbols.now) }
{
    let (first, after) = read_choices(alloc, symbols, room, prop, end)?;
    let (second, to) = read_times_of(alloc, symbols, first, after)?;
    read_aborts(alloc, symbols, room, second, to)
}
