//! Reading an expression by descent. `room` is how many phrases may still open.

ghost use Rattle.psl_grammar.specs.Symbols.{symbol_at, is_prefix};
ghost use Rattle.std.specs.Prelude.{◌≡◌, ◌<◌, ◌≤◌, ◌+◌, ◌-◌, suc, true, false, length, IfOk};
ghost use Rattle.psl_grammar.specs.View.{expr_of};
ghost use Rattle.unit_reader.specs.inner.Answers.{Gives};
ghost use Rattle.unit_reader.specs.inner.ReadViews.{expr_read};
ghost use Rattle.unit_reader.specs.inner.Steps.{is_at, loop};
ghost use Rattle.unit_reader.specs.inner.ExprReaders.{part_at, select_at, name_at, paren_with, prefix_with, operand_at};
ghost use Rattle.unit_reader.specs.inner.ExprReaders.{operand_in, joins, join_with, levels_with, joined_with};
ghost use Rattle.unit_reader.specs.inner.ExprReaders.{branches_with, choice_at, choice_in, bool_in};

use crate::errors::ParseError;
use crate::symbols::{is_at, is_literal, is_prefix, level_at, symbol_at};
use crate::trees::{binary, choice, unary};
use psl_grammar::{RawExpr, Symbol};
use std::alloc::Global;

/// An operand inside one more open phrase.
#[cycle(expr)]
#[tactic(auto, unfolding(crate::specs::inner::ExprReaders::operand_at))]
pub fn open_operand(
    alloc: Global,
    symbols: &[Symbol],
    room: u32,
    from: u32,
) -> Result<(RawExpr, u32), ParseError>
    requires few { length symbols.now ≤ 1048576 }
    requires within { from ≤ length symbols.now }
    requires room { room ≤ 64 }
    ensures gives { Gives expr_read result (operand_at symbols.now room from) }
    ensures some { IfOk result (λ read. from < read.1) }
    ensures end { IfOk result (λ read. read.1 ≤ length symbols.now) }
{
    if room == 0 {
        return Err(ParseError::TooDeep { token: from });
    }
    read_operand(alloc, symbols, room - 1, from)
}

/// An expression inside one more open phrase.
#[cycle(expr)]
#[tactic(auto, unfolding(crate::specs::inner::ExprReaders::choice_at))]
pub fn open_choice(
    alloc: Global,
    symbols: &[Symbol],
    room: u32,
    braced: bool,
    from: u32,
) -> Result<(RawExpr, u32), ParseError>
    requires few { length symbols.now ≤ 1048576 }
    requires within { from ≤ length symbols.now }
    requires room { room ≤ 64 }
    ensures gives { Gives expr_read result (choice_at symbols.now room braced from) }
    ensures some { IfOk result (λ read. from < read.1) }
    ensures end { IfOk result (λ read. read.1 ≤ length symbols.now) }
{
    if room == 0 {
        return Err(ParseError::TooDeep { token: from });
    }
    read_choice(alloc, symbols, room - 1, braced, from)
}

/// What is behind the `:` of a select.
#[tactic(auto, unfolding(crate::specs::inner::ExprReaders::part_at))]
fn read_part(symbols: &[Symbol], from: u32) -> Result<(RawExpr, u32), ParseError>
    requires few { length symbols.now ≤ 1048576 }
    requires within { from ≤ length symbols.now }
    ensures gives { Gives expr_read result (part_at symbols.now from) }
    ensures some { IfOk result (λ read. from < read.1) }
    ensures end { IfOk result (λ read. read.1 ≤ length symbols.now) }
{
    if !is_at(symbols, from + 3, Symbol::Colon) {
        return Err(ParseError::Syntax { token: from + 3 });
    }
    if !is_at(symbols, from + 4, Symbol::Number) {
        return Err(ParseError::Syntax { token: from + 4 });
    }
    if !is_at(symbols, from + 5, Symbol::CloseBracket) {
        return Err(ParseError::Syntax { token: from + 5 });
    }
    let select = Some((from + 2, Some(from + 4)));
    Ok((RawExpr::Name { name: from, select }, from + 6))
}

/// What is behind the bracket of a select.
#[tactic(auto, using(crate::proofs::Loops::stopped), unfolding(crate::specs::inner::ExprReaders::select_at))]
fn read_select(symbols: &[Symbol], from: u32) -> Result<(RawExpr, u32), ParseError>
    requires few { length symbols.now ≤ 1048576 }
    requires within { from ≤ length symbols.now }
    ensures gives { Gives expr_read result (select_at symbols.now from) }
    ensures some { IfOk result (λ read. from < read.1) }
    ensures end { IfOk result (λ read. read.1 ≤ length symbols.now) }
{
    if !is_at(symbols, from + 2, Symbol::Number) {
        return Err(ParseError::Syntax { token: from + 2 });
    }
    if is_at(symbols, from + 3, Symbol::CloseBracket) {
        let select = Some((from + 2, None));
        return Ok((RawExpr::Name { name: from, select }, from + 4));
    }
    read_part(symbols, from)
}

/// A name with its select.
#[tactic(auto, using(crate::proofs::Loops::stopped), unfolding(crate::specs::inner::ExprReaders::name_at))]
fn read_name(symbols: &[Symbol], from: u32) -> Result<(RawExpr, u32), ParseError>
    requires few { length symbols.now ≤ 1048576 }
    requires within { from ≤ length symbols.now }
    requires name { is_at symbols.now from Symbol.Name ≡ true }
    ensures gives { Gives expr_read result (name_at symbols.now from) }
    ensures some { IfOk result (λ read. from < read.1) }
    ensures end { IfOk result (λ read. read.1 ≤ length symbols.now) }
{
    if is_at(symbols, from + 1, Symbol::OpenBracket) {
        return read_select(symbols, from);
    }
    let select = None;
    Ok((RawExpr::Name { name: from, select }, from + 1))
}

/// An operand with its prefix operators.
#[cycle(expr)]
#[tactic(auto, using(crate::proofs::Loops::stopped), unfolding(crate::specs::inner::ExprReaders::operand_with))]
pub fn read_operand(
    alloc: Global,
    symbols: &[Symbol],
    room: u32,
    from: u32,
) -> Result<(RawExpr, u32), ParseError>
    requires few { length symbols.now ≤ 1048576 }
    requires within { from ≤ length symbols.now }
    requires room { room ≤ 64 }
    ensures gives { Gives expr_read result (operand_in symbols.now room from) }
    ensures some { IfOk result (λ read. from < read.1) }
    ensures end { IfOk result (λ read. read.1 ≤ length symbols.now) }
{
    if is_at(symbols, from, Symbol::Name) {
        return read_name(symbols, from);
    }
    if is_literal(symbol_at(symbols, from)) {
        return Ok((RawExpr::Literal(from), from + 1));
    }
    if is_at(symbols, from, Symbol::OpenParenthesis) {
        return read_paren(alloc, symbols, room, from);
    }
    if is_prefix(symbol_at(symbols, from)) {
        return read_prefix(alloc, symbols, room, from);
    }
    Err(ParseError::Syntax { token: from })
}

/// An expression in parentheses.
#[cycle(expr)]
#[tactic(auto, using(crate::proofs::Loops::stopped), unfolding(crate::specs::inner::ExprReaders::paren_with))]
pub fn read_paren(
    alloc: Global,
    symbols: &[Symbol],
    room: u32,
    from: u32,
) -> Result<(RawExpr, u32), ParseError>
    requires few { length symbols.now ≤ 1048576 }
    requires within { from ≤ length symbols.now }
    requires room { room ≤ 64 }
    requires here { is_at symbols.now from Symbol.OpenParenthesis ≡ true }
    ensures gives { Gives expr_read result (paren_with symbols.now (choice_at symbols.now room false) from) }
    ensures some { IfOk result (λ read. from < read.1) }
    ensures end { IfOk result (λ read. read.1 ≤ length symbols.now) }
{
    let (expr, to) = open_choice(alloc, symbols, room, false, from + 1)?;
    if !is_at(symbols, to, Symbol::CloseParenthesis) {
        return Err(ParseError::Syntax { token: to });
    }
    Ok((expr, to + 1))
}

/// A prefix operator and its operand.
#[cycle(expr)]
#[tactic(auto, using(crate::proofs::Loops::stopped), unfolding(crate::specs::inner::ExprReaders::prefix_with))]
fn read_prefix(
    alloc: Global,
    symbols: &[Symbol],
    room: u32,
    from: u32,
) -> Result<(RawExpr, u32), ParseError>
    requires few { length symbols.now ≤ 1048576 }
    requires within { from ≤ length symbols.now }
    requires room { room ≤ 64 }
    requires here { is_prefix (symbol_at symbols.now from) ≡ true }
    ensures gives { Gives expr_read result (prefix_with symbols.now (operand_at symbols.now room) from) }
    ensures some { IfOk result (λ read. from < read.1) }
    ensures end { IfOk result (λ read. read.1 ≤ length symbols.now) }
{
    let (operand, to) = open_operand(alloc, symbols, room, from + 1)?;
    let whole = unary(alloc, from, operand)?;
    Ok((whole, to))
}

/// What binary operators of a level and of tighter ones join to an operand that was read.
#[cycle(expr)]
#[tactic(auto, using(crate::proofs::Loops::stopped), unfolding(crate::specs::inner::ExprReaders::levels_with))]
pub fn read_levels(
    alloc: Global,
    symbols: &[Symbol],
    room: u32,
    braced: bool,
    level: u32,
    operand: RawExpr,
    end: u32,
) -> Result<(RawExpr, u32), ParseError>
    requires few { length symbols.now ≤ 1048576 }
    requires within { end ≤ length symbols.now }
    requires room { room ≤ 64 }
    requires level { level ≤ 9 }
    ensures gives { Gives expr_read result
        (levels_with symbols.now (operand_in symbols.now room) braced level (expr_of operand, end)) }
    ensures some { IfOk result (λ read. end ≤ read.1) }
    ensures end { IfOk result (λ read. read.1 ≤ length symbols.now) }
{
    if level == 0 {
        return Ok((operand, end));
    }
    let (left, to) = read_levels(alloc, symbols, room, braced, level - 1, operand, end)?;
    read_joins(alloc, symbols, room, braced, level, left, to)
}

/// What binary operators of one level join to a phrase that was read.
#[cycle(expr)]
#[tactic(auto, using(crate::proofs::Loops::stopped))]
fn read_joins(
    alloc: Global,
    symbols: &[Symbol],
    room: u32,
    braced: bool,
    level: u32,
    first: RawExpr,
    end: u32,
) -> Result<(RawExpr, u32), ParseError>
    requires few { length symbols.now ≤ 1048576 }
    requires within { end ≤ length symbols.now }
    requires room { room ≤ 64 }
    requires some_level { 1 ≤ level }
    requires level { level ≤ 9 }
    ensures gives { Gives expr_read result (loop (joins symbols.now braced level)
        (join_with symbols.now (joined_with symbols.now (operand_in symbols.now room) braced (level - 1)))
        (suc (length symbols.now)) (expr_of first, end)) }
    ensures some { IfOk result (λ read. end ≤ read.1) }
    ensures end { IfOk result (λ read. read.1 ≤ length symbols.now) }
{
    let mut left = first;
    let mut to = end;
    'joins: while joins(symbols, braced, level, to) {
        match read_join(alloc, symbols, room, braced, level, left, to) {
            Ok((whole, after)) => {
                left = whole;
                to = after;
            }
            Err(error) => return Err(error),
        }
    }
    Ok((left, to))
}

/// A binary operator and its right operand, behind its left one.
#[cycle(expr)]
#[tactic(auto, using(crate::proofs::Loops::stopped), unfolding(crate::specs::inner::ExprReaders::join_with))]
fn read_join(
    alloc: Global,
    symbols: &[Symbol],
    room: u32,
    braced: bool,
    level: u32,
    left: RawExpr,
    mark: u32,
) -> Result<(RawExpr, u32), ParseError>
    requires few { length symbols.now ≤ 1048576 }
    requires within { mark ≤ length symbols.now }
    requires room { room ≤ 64 }
    requires some_level { 1 ≤ level }
    requires level { level ≤ 9 }
    requires goes { joins symbols.now braced level mark ≡ true }
    ensures gives { Gives expr_read result
        (join_with symbols.now (joined_with symbols.now (operand_in symbols.now room) braced (level - 1))
        (expr_of left, mark)) }
    ensures some { IfOk result (λ read. mark < read.1) }
    ensures end { IfOk result (λ read. read.1 ≤ length symbols.now) }
{
    let (right, to) = read_joined(alloc, symbols, room, braced, level - 1, mark + 1)?;
    let whole = binary(alloc, mark, left, right)?;
    Ok((whole, to))
}

fn joins(symbols: &[Symbol], braced: bool, level: u32, place: u32) -> bool
    requires few { length symbols.now ≤ 1048576 }
    requires within { place ≤ length symbols.now }
    ensures { result ≡ joins symbols.now braced level place }
{
    level_at(braced, symbols, place) == level
}

/// An operand, and what binary operators of a level and of tighter ones join to it.
#[cycle(expr)]
#[tactic(auto, using(crate::proofs::Loops::stopped), unfolding(crate::specs::inner::ExprReaders::joined_with))]
fn read_joined(
    alloc: Global,
    symbols: &[Symbol],
    room: u32,
    braced: bool,
    level: u32,
    from: u32,
) -> Result<(RawExpr, u32), ParseError>
    requires few { length symbols.now ≤ 1048576 }
    requires within { from ≤ length symbols.now }
    requires room { room ≤ 64 }
    requires level { level ≤ 9 }
    ensures gives { Gives expr_read result
        (joined_with symbols.now (operand_in symbols.now room) braced level from) }
    ensures some { IfOk result (λ read. from < read.1) }
    ensures end { IfOk result (λ read. read.1 ≤ length symbols.now) }
{
    let (operand, end) = read_operand(alloc, symbols, room, from)?;
    read_levels(alloc, symbols, room, braced, level, operand, end)
}

/// An expression of any operators.
#[cycle(expr)]
#[tactic(auto, using(crate::proofs::Loops::stopped), unfolding(crate::specs::inner::ExprReaders::choice_with))]
pub fn read_choice(
    alloc: Global,
    symbols: &[Symbol],
    room: u32,
    braced: bool,
    from: u32,
) -> Result<(RawExpr, u32), ParseError>
    requires few { length symbols.now ≤ 1048576 }
    requires within { from ≤ length symbols.now }
    requires room { room ≤ 64 }
    ensures gives { Gives expr_read result (choice_in symbols.now room braced from) }
    ensures some { IfOk result (λ read. from < read.1) }
    ensures end { IfOk result (λ read. read.1 ≤ length symbols.now) }
{
    let (test, question) = read_joined(alloc, symbols, room, braced, 9, from)?;
    read_branches(alloc, symbols, room, braced, test, question)
}

/// The branches of a choice behind its test, where it has them.
#[cycle(expr)]
#[tactic(auto, using(crate::proofs::Loops::stopped), unfolding(crate::specs::inner::ExprReaders::branches_with))]
pub fn read_branches(
    alloc: Global,
    symbols: &[Symbol],
    room: u32,
    braced: bool,
    test: RawExpr,
    question: u32,
) -> Result<(RawExpr, u32), ParseError>
    requires few { length symbols.now ≤ 1048576 }
    requires within { question ≤ length symbols.now }
    requires room { room ≤ 64 }
    ensures gives { Gives expr_read result
        (branches_with symbols.now (choice_at symbols.now room) braced (expr_of test, question)) }
    ensures some { IfOk result (λ read. question ≤ read.1) }
    ensures end { IfOk result (λ read. read.1 ≤ length symbols.now) }
{
    if !is_at(symbols, question, Symbol::Question) {
        return Ok((test, question));
    }
    let (yes, colon) = open_choice(alloc, symbols, room, false, question + 1)?;
    if !is_at(symbols, colon, Symbol::Colon) {
        return Err(ParseError::Syntax { token: colon });
    }
    let (no, to) = open_choice(alloc, symbols, room, braced, colon + 1)?;
    let whole = choice(alloc, question, test, yes, no)?;
    Ok((whole, to))
}

/// A bool, which takes in as many tokens as it can.
#[tactic(auto, using(crate::proofs::Loops::stopped), unfolding(crate::specs::inner::ExprReaders::bool_in))]
pub fn read_bool(
    alloc: Global,
    symbols: &[Symbol],
    room: u32,
    braced: bool,
    from: u32,
) -> Result<(RawExpr, u32), ParseError>
    requires few { length symbols.now ≤ 1048576 }
    requires within { from ≤ length symbols.now }
    requires room { room ≤ 64 }
    ensures gives { Gives expr_read result (bool_in symbols.now room braced from) }
    ensures some { IfOk result (λ read. from < read.1) }
    ensures end { IfOk result (λ read. read.1 ≤ length symbols.now) }
{
    let (expr, to) = read_choice(alloc, symbols, room, braced, from)?;
    if level_at(braced, symbols, to) <= 10 {
        return Err(ParseError::Syntax { token: to });
    }
    Ok((expr, to))
}
