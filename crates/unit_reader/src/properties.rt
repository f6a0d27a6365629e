//! Reading a property by descent. `room` is how many phrases may still open.

ghost use Rattle.std.specs.Prelude.{◌≡◌, ◌<◌, ◌≤◌, ◌+◌, ◌-◌, suc, true, false, length, IfOk};
ghost use Rattle.psl_grammar.specs.Symbols.{symbol_at};
ghost use Rattle.psl_grammar.specs.RawProp as raw;
ghost use Rattle.psl_grammar.specs.View.{expr_of, sere_of, prop_of};
ghost use Rattle.unit_reader.specs.inner.Answers.{Gives};
ghost use Rattle.unit_reader.specs.inner.ReadViews.{prop_read};
ghost use Rattle.unit_reader.specs.inner.Bodies.{phrase_of};
ghost use Rattle.unit_reader.specs.inner.Steps.{is_at, loop};
ghost use Rattle.unit_reader.specs.inner.FormReaders.{is_next};
ghost use Rattle.unit_reader.specs.inner.PropReaders.{goes_at, negation_with, paren_prop_with, atom_with, factor_with};
ghost use Rattle.unit_reader.specs.inner.PropReaders.{and_with, both_with, or_with, either_with, abt_with};
ghost use Rattle.unit_reader.specs.inner.PropReaders.{eventually_with, next_with, occ_with, until_with, untl_with};
ghost use Rattle.unit_reader.specs.inner.PropReaders.{suffix_of, suffix_with, suff_with, implied_with, impl_with};
ghost use Rattle.unit_reader.specs.inner.PropReaders.{always_with, prop_with, phrase_with, prop_at, settled, marked};
ghost use Rattle.unit_reader.specs.inner.PropReaders.{tighter_of};

use crate::bodies::Body;
use crate::errors::ParseError;
use crate::expressions::read_operand;
use crate::next_forms::{is_next, read_form};
use crate::operators::{as_sequence, combine, negate, read_marked, read_settled, read_tighter};
use crate::sequences::read_tight;
use crate::symbols::{begins_sequence, is_at, symbol_at};
use crate::trees::{combined, later, prefixed, suffixed};
use psl_grammar::{RawProp, RawSere, Symbol};
use std::alloc::Global;

/// A body inside one more open phrase.
#[cycle(prop)]
#[tactic(auto, unfolding(crate::specs::inner::PropReaders::prop_at, crate::specs::inner::PropReaders::phrase_with))]
fn open_body(
    alloc: Global,
    symbols: &[Symbol],
    room: u32,
    body: Body,
    from: u32,
) -> Result<(RawProp, u32), ParseError>
    requires few { length symbols.now ≤ 1048576 }
    requires within { from ≤ length symbols.now }
    requires room { room ≤ 64 }
    ensures gives { Gives prop_read result (prop_at symbols.now room (phrase_of body) from) }
    ensures some { IfOk result (λ read. from < read.1) }
    ensures end { IfOk result (λ read. read.1 ≤ length symbols.now) }
{
    if room == 0 {
        return Err(ParseError::TooDeep { token: from });
    }
    match body {
        Body::Operand => read_atom(alloc, symbols, room - 1, from),
        Body::Occurrence => read_occ(alloc, symbols, room - 1, from),
        Body::Suffixed => read_suff(alloc, symbols, room - 1, from),
        Body::Implication => read_impl(alloc, symbols, room - 1, from),
        Body::Property => read_prop(alloc, symbols, room - 1, from),
    }
}

/// `!` and its operand.
#[cycle(prop)]
#[tactic(auto, using(crate::proofs::Loops::stopped), unfolding(crate::specs::inner::PropReaders::negation_with))]
fn read_negation(
    alloc: Global,
    symbols: &[Symbol],
    room: u32,
    from: u32,
) -> Result<(RawProp, u32), ParseError>
    requires few { length symbols.now ≤ 1048576 }
    requires within { from ≤ length symbols.now }
    requires room { room ≤ 64 }
    requires begun { from < length symbols.now }
    ensures gives { Gives prop_read result (negation_with symbols.now (prop_at symbols.now room) room from) }
    ensures some { IfOk result (λ read. from < read.1) }
    ensures end { IfOk result (λ read. read.1 ≤ length symbols.now) }
{
    let (body, to) = open_body(alloc, symbols, room, Body::Operand, from + 1)?;
    let whole = negate(alloc, from, body)?;
    Ok((whole, to))
}

/// A property in parentheses.
#[cycle(prop)]
#[tactic(auto, using(crate::proofs::Loops::stopped), unfolding(crate::specs::inner::PropReaders::paren_prop_with))]
fn read_paren_prop(
    alloc: Global,
    symbols: &[Symbol],
    room: u32,
    from: u32,
) -> Result<(RawProp, u32), ParseError>
    requires few { length symbols.now ≤ 1048576 }
    requires within { from ≤ length symbols.now }
    requires room { room ≤ 64 }
    requires begun { from < length symbols.now }
    ensures gives { Gives prop_read result (paren_prop_with symbols.now (prop_at symbols.now room) room from) }
    ensures some { IfOk result (λ read. from < read.1) }
    ensures end { IfOk result (λ read. read.1 ≤ length symbols.now) }
{
    let (body, to) = open_body(alloc, symbols, room, Body::Property, from + 1)?;
    if !is_at(symbols, to, Symbol::CloseParenthesis) {
        return Err(ParseError::Syntax { token: to });
    }
    Ok((body, to + 1))
}

/// An operand with its prefix operators.
#[cycle(prop)]
#[tactic(auto, using(crate::proofs::Loops::stopped), unfolding(crate::specs::inner::PropReaders::atom_with))]
fn read_atom(
    alloc: Global,
    symbols: &[Symbol],
    room: u32,
    from: u32,
) -> Result<(RawProp, u32), ParseError>
    requires few { length symbols.now ≤ 1048576 }
    requires within { from ≤ length symbols.now }
    requires room { room ≤ 64 }
    ensures gives { Gives prop_read result (atom_with symbols.now (prop_at symbols.now room) room from) }
    ensures some { IfOk result (λ read. from < read.1) }
    ensures end { IfOk result (λ read. read.1 ≤ length symbols.now) }
{
    if is_at(symbols, from, Symbol::Exclamation) {
        return read_negation(alloc, symbols, room, from);
    }
    if is_at(symbols, from, Symbol::OpenParenthesis) {
        return read_paren_prop(alloc, symbols, room, from);
    }
    if is_at(symbols, from, Symbol::PropertyName) {
        return Ok((RawProp::Name(from), from + 1));
    }
    if begins_sequence(symbol_at(symbols, from)) {
        let (sere, end) = read_tight(alloc, symbols, room, from)?;
        return read_marked(symbols, sere, end);
    }
    let (expr, to) = read_operand(alloc, symbols, room, from)?;
    Ok((RawProp::Bool(expr), to))
}

/// An operand of `&&`.
#[cycle(prop)]
#[tactic(auto, using(crate::proofs::Loops::stopped), unfolding(crate::specs::inner::PropReaders::factor_with))]
fn read_factor(
    alloc: Global,
    symbols: &[Symbol],
    room: u32,
    from: u32,
) -> Result<(RawProp, u32), ParseError>
    requires few { length symbols.now ≤ 1048576 }
    requires within { from ≤ length symbols.now }
    requires room { room ≤ 64 }
    ensures gives { Gives prop_read result (factor_with symbols.now (prop_at symbols.now room) room from) }
    ensures some { IfOk result (λ read. from < read.1) }
    ensures end { IfOk result (λ read. read.1 ≤ length symbols.now) }
{
    let (operand, end) = read_atom(alloc, symbols, room, from)?;
    read_tighter(alloc, symbols, room, operand, end)
}

/// `&&` and its right operand, behind its left one.
#[cycle(prop)]
#[tactic(auto, using(crate::proofs::Loops::stopped), unfolding(crate::specs::inner::PropReaders::and_with))]
fn read_and(
    alloc: Global,
    symbols: &[Symbol],
    room: u32,
    left: RawProp,
    mark: u32,
) -> Result<(RawProp, u32), ParseError>
    requires few { length symbols.now ≤ 1048576 }
    requires within { mark ≤ length symbols.now }
    requires room { room ≤ 64 }
    requires begun { mark < length symbols.now }
    ensures gives { Gives prop_read result (and_with symbols.now (prop_at symbols.now room) room (prop_of left, mark)) }
    ensures some { IfOk result (λ read. mark < read.1) }
    ensures end { IfOk result (λ read. read.1 ≤ length symbols.now) }
{
    let (right, to) = read_factor(alloc, symbols, room, mark + 1)?;
    let whole = combine(alloc, mark, left, right)?;
    Ok((whole, to))
}

/// What `&&` joins to a phrase that was read.
#[cycle(prop)]
#[tactic(auto, using(crate::proofs::Loops::stopped))]
fn read_ands(
    alloc: Global,
    symbols: &[Symbol],
    room: u32,
    first: RawProp,
    end: u32,
) -> Result<(RawProp, u32), ParseError>
    requires few { length symbols.now ≤ 1048576 }
    requires within { end ≤ length symbols.now }
    requires room { room ≤ 64 }
    ensures gives { Gives prop_read result (loop (goes_at symbols.now Symbol.AndAnd)
        (and_with symbols.now (prop_at symbols.now room) room) (suc (length symbols.now)) (prop_of first, end)) }
    ensures some { IfOk result (λ read. end ≤ read.1) }
    ensures end { IfOk result (λ read. read.1 ≤ length symbols.now) }
{
    let mut left = first;
    let mut to = end;
    'joins: while is_at(symbols, to, Symbol::AndAnd) {
        match read_and(alloc, symbols, room, left, to) {
            Ok((whole, after)) => {
                left = whole;
                to = after;
            }
            Err(error) => return Err(error),
        }
    }
    Ok((left, to))
}

/// An operand of `||`.
#[cycle(prop)]
#[tactic(auto, using(crate::proofs::Loops::stopped), unfolding(crate::specs::inner::PropReaders::both_with))]
fn read_both(
    alloc: Global,
    symbols: &[Symbol],
    room: u32,
    from: u32,
) -> Result<(RawProp, u32), ParseError>
    requires few { length symbols.now ≤ 1048576 }
    requires within { from ≤ length symbols.now }
    requires room { room ≤ 64 }
    ensures gives { Gives prop_read result (both_with symbols.now (prop_at symbols.now room) room from) }
    ensures some { IfOk result (λ read. from < read.1) }
    ensures end { IfOk result (λ read. read.1 ≤ length symbols.now) }
{
    let (first, end) = read_factor(alloc, symbols, room, from)?;
    read_ands(alloc, symbols, room, first, end)
}

/// `||` and its right operand, behind its left one.
#[cycle(prop)]
#[tactic(auto, using(crate::proofs::Loops::stopped), unfolding(crate::specs::inner::PropReaders::or_with))]
fn read_or(
    alloc: Global,
    symbols: &[Symbol],
    room: u32,
    left: RawProp,
    mark: u32,
) -> Result<(RawProp, u32), ParseError>
    requires few { length symbols.now ≤ 1048576 }
    requires within { mark ≤ length symbols.now }
    requires room { room ≤ 64 }
    requires begun { mark < length symbols.now }
    ensures gives { Gives prop_read result (or_with symbols.now (prop_at symbols.now room) room (prop_of left, mark)) }
    ensures some { IfOk result (λ read. mark < read.1) }
    ensures end { IfOk result (λ read. read.1 ≤ length symbols.now) }
{
    let (right, to) = read_both(alloc, symbols, room, mark + 1)?;
    let whole = combine(alloc, mark, left, right)?;
    Ok((whole, to))
}

/// What `||` joins to a phrase that was read.
#[cycle(prop)]
#[tactic(auto, using(crate::proofs::Loops::stopped))]
fn read_ors(
    alloc: Global,
    symbols: &[Symbol],
    room: u32,
    first: RawProp,
    end: u32,
) -> Result<(RawProp, u32), ParseError>
    requires few { length symbols.now ≤ 1048576 }
    requires within { end ≤ length symbols.now }
    requires room { room ≤ 64 }
    ensures gives { Gives prop_read result (loop (goes_at symbols.now Symbol.OrOr)
        (or_with symbols.now (prop_at symbols.now room) room) (suc (length symbols.now)) (prop_of first, end)) }
    ensures some { IfOk result (λ read. end ≤ read.1) }
    ensures end { IfOk result (λ read. read.1 ≤ length symbols.now) }
{
    let mut left = first;
    let mut to = end;
    'joins: while is_at(symbols, to, Symbol::OrOr) {
        match read_or(alloc, symbols, room, left, to) {
            Ok((whole, after)) => {
                left = whole;
                to = after;
            }
            Err(error) => return Err(error),
        }
    }
    Ok((left, to))
}

/// What `||` joins, and one that it doesn't.
#[cycle(prop)]
#[tactic(auto, using(crate::proofs::Loops::stopped), unfolding(crate::specs::inner::PropReaders::either_with))]
fn read_either(
    alloc: Global,
    symbols: &[Symbol],
    room: u32,
    from: u32,
) -> Result<(RawProp, u32), ParseError>
    requires few { length symbols.now ≤ 1048576 }
    requires within { from ≤ length symbols.now }
    requires room { room ≤ 64 }
    ensures gives { Gives prop_read result (either_with symbols.now (prop_at symbols.now room) room from) }
    ensures some { IfOk result (λ read. from < read.1) }
    ensures end { IfOk result (λ read. read.1 ≤ length symbols.now) }
{
    let (first, end) = read_both(alloc, symbols, room, from)?;
    read_ors(alloc, symbols, room, first, end)
}

/// A phrase with its aborts.
#[cycle(prop)]
#[tactic(auto, using(crate::proofs::Loops::stopped), unfolding(crate::specs::inner::PropReaders::abt_with))]
fn read_abt(
    alloc: Global,
    symbols: &[Symbol],
    room: u32,
    from: u32,
) -> Result<(RawProp, u32), ParseError>
    requires few { length symbols.now ≤ 1048576 }
    requires within { from ≤ length symbols.now }
    requires room { room ≤ 64 }
    ensures gives { Gives prop_read result (abt_with symbols.now (prop_at symbols.now room) room from) }
    ensures some { IfOk result (λ read. from < read.1) }
    ensures end { IfOk result (λ read. read.1 ≤ length symbols.now) }
{
    let (first, end) = read_either(alloc, symbols, room, from)?;
    read_settled(alloc, symbols, room, first, end)
}

/// `eventually!` and its body.
#[cycle(prop)]
#[tactic(auto, using(crate::proofs::Loops::stopped), unfolding(crate::specs::inner::PropReaders::eventually_with))]
fn read_eventually(
    alloc: Global,
    symbols: &[Symbol],
    room: u32,
    from: u32,
) -> Result<(RawProp, u32), ParseError>
    requires few { length symbols.now ≤ 1048576 }
    requires within { from ≤ length symbols.now }
    requires room { room ≤ 64 }
    requires begun { from < length symbols.now }
    ensures gives { Gives prop_read result (eventually_with symbols.now (prop_at symbols.now room) room from) }
    ensures some { IfOk result (λ read. from < read.1) }
    ensures end { IfOk result (λ read. read.1 ≤ length symbols.now) }
{
    let (body, to) = open_body(alloc, symbols, room, Body::Occurrence, from + 1)?;
    let whole = prefixed(alloc, from, body)?;
    Ok((whole, to))
}

/// A form of `next` and its body.
#[cycle(prop)]
#[tactic(auto, using(crate::proofs::Loops::stopped), unfolding(crate::specs::inner::PropReaders::next_with))]
fn read_later(
    alloc: Global,
    symbols: &[Symbol],
    room: u32,
    from: u32,
) -> Result<(RawProp, u32), ParseError>
    requires few { length symbols.now ≤ 1048576 }
    requires within { from ≤ length symbols.now }
    requires room { room ≤ 64 }
    requires begun { from < length symbols.now }
    ensures gives { Gives prop_read result (next_with symbols.now (prop_at symbols.now room) room from) }
    ensures some { IfOk result (λ read. from < read.1) }
    ensures end { IfOk result (λ read. read.1 ≤ length symbols.now) }
{
    let (form, end) = read_form(alloc, symbols, room, from)?;
    let (body, to) = open_body(alloc, symbols, room, Body::Occurrence, end)?;
    let whole = later(alloc, from, form, body)?;
    Ok((whole, to))
}

/// An operand of `until`.
#[cycle(prop)]
#[tactic(auto, using(crate::proofs::Loops::stopped), unfolding(crate::specs::inner::PropReaders::occ_with))]
fn read_occ(
    alloc: Global,
    symbols: &[Symbol],
    room: u32,
    from: u32,
) -> Result<(RawProp, u32), ParseError>
    requires few { length symbols.now ≤ 1048576 }
    requires within { from ≤ length symbols.now }
    requires room { room ≤ 64 }
    ensures gives { Gives prop_read result (occ_with symbols.now (prop_at symbols.now room) room from) }
    ensures some { IfOk result (λ read. from < read.1) }
    ensures end { IfOk result (λ read. read.1 ≤ length symbols.now) }
{
    if is_at(symbols, from, Symbol::EventuallyStrong) {
        return read_eventually(alloc, symbols, room, from);
    }
    if is_next(symbol_at(symbols, from)) {
        return read_later(alloc, symbols, room, from);
    }
    read_abt(alloc, symbols, room, from)
}

/// `until` and its right operand, behind its left one.
#[cycle(prop)]
#[tactic(auto, using(crate::proofs::Loops::stopped), unfolding(crate::specs::inner::PropReaders::until_with))]
fn read_until(
    alloc: Global,
    symbols: &[Symbol],
    room: u32,
    left: RawProp,
    mark: u32,
) -> Result<(RawProp, u32), ParseError>
    requires few { length symbols.now ≤ 1048576 }
    requires within { mark ≤ length symbols.now }
    requires room { room ≤ 64 }
    ensures gives { Gives prop_read result (until_with symbols.now (prop_at symbols.now room) room
        (prop_of left, mark)) }
    ensures some { IfOk result (λ read. mark ≤ read.1) }
    ensures end { IfOk result (λ read. read.1 ≤ length symbols.now) }
{
    if !is_at(symbols, mark, Symbol::Until) {
        return Ok((left, mark));
    }
    let (right, to) = read_occ(alloc, symbols, room, mark + 1)?;
    let whole = combined(alloc, mark, left, right)?;
    Ok((whole, to))
}

/// What may stand behind `|->`, but for a suffix.
#[cycle(prop)]
#[tactic(auto, using(crate::proofs::Loops::stopped), unfolding(crate::specs::inner::PropReaders::untl_with))]
fn read_untl(
    alloc: Global,
    symbols: &[Symbol],
    room: u32,
    from: u32,
) -> Result<(RawProp, u32), ParseError>
    requires few { length symbols.now ≤ 1048576 }
    requires within { from ≤ length symbols.now }
    requires room { room ≤ 64 }
    ensures gives { Gives prop_read result (untl_with symbols.now (prop_at symbols.now room) room from) }
    ensures some { IfOk result (λ read. from < read.1) }
    ensures end { IfOk result (λ read. read.1 ≤ length symbols.now) }
{
    let (left, mark) = read_occ(alloc, symbols, room, from)?;
    read_until(alloc, symbols, room, left, mark)
}

/// A suffix behind its sequence.
#[cycle(prop)]
#[tactic(auto, using(crate::proofs::Loops::stopped), unfolding(crate::specs::inner::PropReaders::suffix_with))]
fn read_suffix(
    alloc: Global,
    symbols: &[Symbol],
    room: u32,
    left: RawProp,
    mark: u32,
) -> Result<(RawProp, u32), ParseError>
    requires few { length symbols.now ≤ 1048576 }
    requires within { mark ≤ length symbols.now }
    requires room { room ≤ 64 }
    requires behind { 1 ≤ mark }
    ensures gives { Gives prop_read result (suffix_with symbols.now (prop_at symbols.now room) room
        (prop_of left, mark)) }
    ensures some { IfOk result (λ read. mark ≤ read.1) }
    ensures end { IfOk result (λ read. read.1 ≤ length symbols.now) }
{
    if !is_at(symbols, mark, Symbol::Suffix) {
        return Ok((left, mark));
    }
    if is_at(symbols, mark - 1, Symbol::CloseParenthesis) {
        return Err(ParseError::Syntax { token: mark });
    }
    read_suffix_of(alloc, symbols, room, left, mark)
}

/// The property behind what must be a sequence.
#[cycle(prop)]
#[tactic(auto, using(crate::proofs::Loops::stopped))]
fn read_suffix_of(
    alloc: Global,
    symbols: &[Symbol],
    room: u32,
    left: RawProp,
    mark: u32,
) -> Result<(RawProp, u32), ParseError>
    requires few { length symbols.now ≤ 1048576 }
    requires within { mark ≤ length symbols.now }
    requires room { room ≤ 64 }
    requires begun { mark < length symbols.now }
    ensures gives { Gives prop_read result (suffix_of symbols.now (prop_at symbols.now room) room (prop_of left) mark) }
    ensures some { IfOk result (λ read. mark < read.1) }
    ensures end { IfOk result (λ read. read.1 ≤ length symbols.now) }
{
    match as_sequence(left) {
        Some(sere) => read_suffix_body(alloc, symbols, room, sere, mark),
        None => Err(ParseError::Syntax { token: mark }),
    }
}

/// The property behind a sequence.
#[cycle(prop)]
#[tactic(auto, using(crate::proofs::Loops::stopped), unfolding(crate::specs::inner::PropReaders::suffix_of))]
fn read_suffix_body(
    alloc: Global,
    symbols: &[Symbol],
    room: u32,
    sere: RawSere,
    mark: u32,
) -> Result<(RawProp, u32), ParseError>
    requires few { length symbols.now ≤ 1048576 }
    requires within { mark ≤ length symbols.now }
    requires room { room ≤ 64 }
    requires begun { mark < length symbols.now }
    ensures gives { Gives prop_read result (suffix_of symbols.now (prop_at symbols.now room) room
        (raw.seq (sere_of sere) false) mark) }
    ensures some { IfOk result (λ read. mark < read.1) }
    ensures end { IfOk result (λ read. read.1 ≤ length symbols.now) }
{
    let (body, to) = open_body(alloc, symbols, room, Body::Suffixed, mark + 1)?;
    let whole = suffixed(alloc, mark, sere, body)?;
    Ok((whole, to))
}

/// An operand of `->` and `<->`.
#[cycle(prop)]
#[tactic(auto, using(crate::proofs::Loops::stopped), unfolding(crate::specs::inner::PropReaders::suff_with))]
fn read_suff(
    alloc: Global,
    symbols: &[Symbol],
    room: u32,
    from: u32,
) -> Result<(RawProp, u32), ParseError>
    requires few { length symbols.now ≤ 1048576 }
    requires within { from ≤ length symbols.now }
    requires room { room ≤ 64 }
    ensures gives { Gives prop_read result (suff_with symbols.now (prop_at symbols.now room) room from) }
    ensures some { IfOk result (λ read. from < read.1) }
    ensures end { IfOk result (λ read. read.1 ≤ length symbols.now) }
{
    let (left, mark) = read_untl(alloc, symbols, room, from)?;
    read_suffix(alloc, symbols, room, left, mark)
}

/// `->` or `<->` and its right operand, behind its left one.
#[cycle(prop)]
#[tactic(auto, using(crate::proofs::Loops::stopped), unfolding(crate::specs::inner::PropReaders::implied_with))]
fn read_implied(
    alloc: Global,
    symbols: &[Symbol],
    room: u32,
    left: RawProp,
    mark: u32,
) -> Result<(RawProp, u32), ParseError>
    requires few { length symbols.now ≤ 1048576 }
    requires within { mark ≤ length symbols.now }
    requires room { room ≤ 64 }
    ensures gives { Gives prop_read result (implied_with symbols.now (prop_at symbols.now room) room
        (prop_of left, mark)) }
    ensures some { IfOk result (λ read. mark ≤ read.1) }
    ensures end { IfOk result (λ read. read.1 ≤ length symbols.now) }
{
    if is_at(symbols, mark, Symbol::Arrow) {
        let (right, to) = open_body(alloc, symbols, room, Body::Implication, mark + 1)?;
        let whole = combined(alloc, mark, left, right)?;
        return Ok((whole, to));
    }
    if !is_at(symbols, mark, Symbol::DoubleArrow) {
        return Ok((left, mark));
    }
    let (right, to) = read_suff(alloc, symbols, room, mark + 1)?;
    let whole = combined(alloc, mark, left, right)?;
    Ok((whole, to))
}

/// What may stand behind `always`, but for `always` itself.
#[cycle(prop)]
#[tactic(auto, using(crate::proofs::Loops::stopped), unfolding(crate::specs::inner::PropReaders::impl_with))]
fn read_impl(
    alloc: Global,
    symbols: &[Symbol],
    room: u32,
    from: u32,
) -> Result<(RawProp, u32), ParseError>
    requires few { length symbols.now ≤ 1048576 }
    requires within { from ≤ length symbols.now }
    requires room { room ≤ 64 }
    ensures gives { Gives prop_read result (impl_with symbols.now (prop_at symbols.now room) room from) }
    ensures some { IfOk result (λ read. from < read.1) }
    ensures end { IfOk result (λ read. read.1 ≤ length symbols.now) }
{
    let (left, mark) = read_suff(alloc, symbols, room, from)?;
    read_implied(alloc, symbols, room, left, mark)
}

/// `always` or `never` and its body.
#[cycle(prop)]
#[tactic(auto, using(crate::proofs::Loops::stopped), unfolding(crate::specs::inner::PropReaders::always_with))]
fn read_always(
    alloc: Global,
    symbols: &[Symbol],
    room: u32,
    from: u32,
) -> Result<(RawProp, u32), ParseError>
    requires few { length symbols.now ≤ 1048576 }
    requires within { from ≤ length symbols.now }
    requires room { room ≤ 64 }
    requires begun { from < length symbols.now }
    ensures gives { Gives prop_read result (always_with symbols.now (prop_at symbols.now room) room from) }
    ensures some { IfOk result (λ read. from < read.1) }
    ensures end { IfOk result (λ read. read.1 ≤ length symbols.now) }
{
    let (body, to) = open_body(alloc, symbols, room, Body::Property, from + 1)?;
    let whole = prefixed(alloc, from, body)?;
    Ok((whole, to))
}

/// A property.
#[cycle(prop)]
#[tactic(auto, using(crate::proofs::Loops::stopped), unfolding(crate::specs::inner::PropReaders::prop_with))]
pub fn read_prop(
    alloc: Global,
    symbols: &[Symbol],
    room: u32,
    from: u32,
) -> Result<(RawProp, u32), ParseError>
    requires few { length symbols.now ≤ 1048576 }
    requires within { from ≤ length symbols.now }
    requires room { room ≤ 64 }
    ensures gives { Gives prop_read result (prop_with symbols.now (prop_at symbols.now room) room from) }
    ensures some { IfOk result (λ read. from < read.1) }
    ensures end { IfOk result (λ read. read.1 ≤ length symbols.now) }
{
    if is_at(symbols, from, Symbol::Always) {
        return read_always(alloc, symbols, room, from);
    }
    read_impl(alloc, symbols, room, from)
}
