//! Reading the forms of `next`, up to their operand.

ghost use Rattle.std.specs.Prelude.{◌≡◌, ◌<◌, ◌≤◌, ◌+◌, true, false, length, Some, None, Option, IfOk};
ghost use Rattle.psl_grammar.specs.Symbols.{symbol_at};
ghost use Rattle.psl_grammar.specs.View.{expr_of};
ghost use Rattle.unit_reader.specs.inner.Answers.{Gives};
ghost use Rattle.unit_reader.specs.inner.ReadViews.{expr_read, form_read, form_of, on_of, itself};
ghost use Rattle.unit_reader.specs.inner.Steps.{is_at};
ghost use Rattle.unit_reader.specs.inner.ExprReaders.{paren_with, choice_at};
ghost use Rattle.unit_reader.specs.inner.FormReaders.{is_next, count_end, range_end, on_in, next_at, next_range_at};
ghost use Rattle.unit_reader.specs.inner.FormReaders.{event_count_at, event_range_at, form_in};

use crate::errors::ParseError;
use crate::expressions::read_paren;
use crate::symbols::{is_at, symbol_at};
use psl_grammar::{RawExpr, Symbol};
use std::alloc::Global;

/// What stands between a word of `next` and its operand: the Boolean, and the tokens of the counts.
#[derive(Debug, Drop)]
pub struct NextForm {
    pub on: Option<RawExpr>,
    pub low: Option<u32>,
    pub high: Option<u32>,
}

fn form(on: Option<RawExpr>, low: Option<u32>, high: Option<u32>) -> NextForm
    ensures { form_of result ≡ (on_of on, low, high) }
{
    NextForm { on, low, high }
}

/// A count in brackets; gives its end.
#[tactic(auto, using(crate::proofs::Loops::stopped), unfolding(crate::specs::inner::FormReaders::count_end))]
fn read_count(symbols: &[Symbol], from: u32) -> Result<u32, ParseError>
    requires few { length symbols.now ≤ 1048576 }
    requires within { from ≤ length symbols.now }
    ensures gives { Gives itself result (count_end symbols.now from) }
    ensures some { IfOk result (λ read. from < read) }
    ensures end { IfOk result (λ read. read ≤ length symbols.now) }
{
    if !is_at(symbols, from, Symbol::OpenBracket) {
        return Err(ParseError::Syntax { token: from });
    }
    if !is_at(symbols, from + 1, Symbol::Number) {
        return Err(ParseError::Syntax { token: from + 1 });
    }
    if !is_at(symbols, from + 2, Symbol::CloseBracket) {
        return Err(ParseError::Syntax { token: from + 2 });
    }
    Ok(from + 3)
}

/// A range in brackets; gives its end.
#[tactic(auto, using(crate::proofs::Loops::stopped), unfolding(crate::specs::inner::FormReaders::range_end))]
pub fn read_range(symbols: &[Symbol], from: u32) -> Result<u32, ParseError>
    requires few { length symbols.now ≤ 1048576 }
    requires within { from ≤ length symbols.now }
    ensures gives { Gives itself result (range_end symbols.now from) }
    ensures some { IfOk result (λ read. from < read) }
    ensures end { IfOk result (λ read. read ≤ length symbols.now) }
{
    if !is_at(symbols, from, Symbol::OpenBracket) {
        return Err(ParseError::Syntax { token: from });
    }
    if !is_at(symbols, from + 1, Symbol::Number) {
        return Err(ParseError::Syntax { token: from + 1 });
    }
    if !is_at(symbols, from + 2, Symbol::Colon) {
        return Err(ParseError::Syntax { token: from + 2 });
    }
    if !is_at(symbols, from + 3, Symbol::Number) {
        return Err(ParseError::Syntax { token: from + 3 });
    }
    if !is_at(symbols, from + 4, Symbol::CloseBracket) {
        return Err(ParseError::Syntax { token: from + 4 });
    }
    Ok(from + 5)
}

/// A bool in parentheses.
#[tactic(auto, using(crate::proofs::Loops::stopped), unfolding(crate::specs::inner::FormReaders::on_in))]
fn read_on(
    alloc: Global,
    symbols: &[Symbol],
    room: u32,
    from: u32,
) -> Result<(RawExpr, u32), ParseError>
    requires few { length symbols.now ≤ 1048576 }
    requires within { from ≤ length symbols.now }
    requires room { room ≤ 64 }
    ensures gives { Gives expr_read result (on_in symbols.now room from) }
    ensures some { IfOk result (λ read. from < read.1) }
    ensures end { IfOk result (λ read. read.1 ≤ length symbols.now) }
{
    if !is_at(symbols, from, Symbol::OpenParenthesis) {
        return Err(ParseError::Syntax { token: from });
    }
    read_paren(alloc, symbols, room, from)
}

/// `next` with its count, where it has one.
#[tactic(auto, using(crate::proofs::Loops::stopped), unfolding(crate::specs::inner::FormReaders::next_at))]
fn read_next(symbols: &[Symbol], from: u32) -> Result<(NextForm, u32), ParseError>
    requires few { length symbols.now ≤ 1048576 }
    requires within { from ≤ length symbols.now }
    requires begun { from < length symbols.now }
    ensures gives { Gives form_read result (next_at symbols.now from) }
    ensures some { IfOk result (λ read. from < read.1) }
    ensures end { IfOk result (λ read. read.1 ≤ length symbols.now) }
{
    if !is_at(symbols, from + 1, Symbol::OpenBracket) {
        return Ok((form(None, None, None), from + 1));
    }
    let to = read_count(symbols, from + 1)?;
    Ok((form(None, Some(from + 2), None), to))
}

/// `next_a` or `next_e` with its range.
#[tactic(auto, using(crate::proofs::Loops::stopped), unfolding(crate::specs::inner::FormReaders::next_range_at))]
fn read_next_range(symbols: &[Symbol], from: u32) -> Result<(NextForm, u32), ParseError>
    requires few { length symbols.now ≤ 1048576 }
    requires within { from ≤ length symbols.now }
    requires begun { from < length symbols.now }
    ensures gives { Gives form_read result (next_range_at symbols.now from) }
    ensures some { IfOk result (λ read. from < read.1) }
    ensures end { IfOk result (λ read. read.1 ≤ length symbols.now) }
{
    let to = read_range(symbols, from + 1)?;
    Ok((form(None, Some(from + 2), Some(from + 4)), to))
}

/// The count behind the Boolean of `next_event`, where it has one.
#[tactic(auto, using(crate::proofs::Loops::stopped), unfolding(crate::specs::inner::FormReaders::event_count_at))]
fn read_event_count(
    symbols: &[Symbol],
    on: RawExpr,
    end: u32,
) -> Result<(NextForm, u32), ParseError>
    requires few { length symbols.now ≤ 1048576 }
    requires within { end ≤ length symbols.now }
    ensures gives { Gives form_read result (event_count_at symbols.now (expr_of on, end)) }
    ensures some { IfOk result (λ read. end ≤ read.1) }
    ensures end { IfOk result (λ read. read.1 ≤ length symbols.now) }
{
    if !is_at(symbols, end, Symbol::OpenBracket) {
        return Ok((form(Some(on), None, None), end));
    }
    let to = read_count(symbols, end)?;
    Ok((form(Some(on), Some(end + 1), None), to))
}

/// The range behind the Boolean of `next_event_a` or `next_event_e`.
#[tactic(auto, using(crate::proofs::Loops::stopped), unfolding(crate::specs::inner::FormReaders::event_range_at))]
fn read_event_range(
    symbols: &[Symbol],
    on: RawExpr,
    end: u32,
) -> Result<(NextForm, u32), ParseError>
    requires few { length symbols.now ≤ 1048576 }
    requires within { end ≤ length symbols.now }
    ensures gives { Gives form_read result (event_range_at symbols.now (expr_of on, end)) }
    ensures some { IfOk result (λ read. end ≤ read.1) }
    ensures end { IfOk result (λ read. read.1 ≤ length symbols.now) }
{
    let to = read_range(symbols, end)?;
    Ok((form(Some(on), Some(end + 1), Some(end + 3)), to))
}

/// A word of `next` with its Boolean and its counts.
#[tactic(auto, using(crate::proofs::Loops::stopped), unfolding(crate::specs::inner::FormReaders::form_in))]
pub fn read_form(
    alloc: Global,
    symbols: &[Symbol],
    room: u32,
    from: u32,
) -> Result<(NextForm, u32), ParseError>
    requires few { length symbols.now ≤ 1048576 }
    requires within { from ≤ length symbols.now }
    requires room { room ≤ 64 }
    requires begun { from < length symbols.now }
    ensures gives { Gives form_read result (form_in symbols.now room from) }
    ensures some { IfOk result (λ read. from < read.1) }
    ensures end { IfOk result (λ read. read.1 ≤ length symbols.now) }
{
    if is_at(symbols, from, Symbol::Next) {
        return read_next(symbols, from);
    }
    if is_at(symbols, from, Symbol::NextRange) {
        return read_next_range(symbols, from);
    }
    if is_at(symbols, from, Symbol::Event) {
        let (on, end) = read_on(alloc, symbols, room, from + 1)?;
        return read_event_count(symbols, on, end);
    }
    if !is_at(symbols, from, Symbol::EventRange) {
        return Err(ParseError::Syntax { token: from });
    }
    let (on, end) = read_on(alloc, symbols, room, from + 1)?;
    read_event_range(symbols, on, end)
}

pub fn is_next(symbol: Symbol) -> bool
    ensures { result ≡ is_next symbol }
{
    let plain = symbol == Symbol::Next || symbol == Symbol::NextRange;
    let event = symbol == Symbol::Event || symbol == Symbol::EventRange;
    plain || event
}
