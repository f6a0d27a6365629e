//! Reading a repetition and a sequence. `room` is how many phrases may still open.

ghost use Rattle.std.specs.Prelude.{◌≡◌, ◌<◌, ◌≤◌, ◌+◌, ◌-◌, suc, true, length, Some, None, Option, IfOk};
ghost use Rattle.psl_grammar.specs.Symbols.{symbol_at, is_pick, begins_sequence};
ghost use Rattle.psl_grammar.specs.View.{expr_of, sere_of};
ghost use Rattle.unit_reader.specs.inner.Answers.{Gives};
ghost use Rattle.unit_reader.specs.inner.ReadViews.{sere_read, itself};
ghost use Rattle.unit_reader.specs.inner.Steps.{is_at, loop};
ghost use Rattle.unit_reader.specs.inner.SereReaders.{rep, is_times, range_end_at, counts_at, counted_at, times_at};
ghost use Rattle.unit_reader.specs.inner.SereReaders.{pick_at, times_go, again_with, times_from, after_bool, timed_in};
ghost use Rattle.unit_reader.specs.inner.SereReaders.{braces_with, lone_at, base_with, tight_with, elem_with};
ghost use Rattle.unit_reader.specs.inner.SereReaders.{sere_joins, sere_join_with, levels_above, cat_at, elem_in};
ghost use Rattle.unit_reader.specs.inner.SereReaders.{tight_in};

use crate::errors::ParseError;
use crate::expressions::read_bool;
use crate::symbols::{begins_sequence, is_at, is_high, is_pick, is_times, sere_level, symbol_at};
use crate::trees::{joined, repeated};
use psl_grammar::{RawExpr, RawRep, RawSere, Symbol};
use std::alloc::Global;

fn rep(mark: u32, low: Option<u32>, high: Option<u32>) -> RawRep
    ensures { result ≡ rep mark low high }
{
    RawRep { mark, low, high }
}

/// The upper count of a range, from before its `:` on.
#[tactic(auto, using(crate::proofs::Loops::stopped), unfolding(crate::specs::inner::SereReaders::range_end_at))]
fn read_range_end(symbols: &[Symbol], from: u32) -> Result<(Option<u32>, u32), ParseError>
    requires few { length symbols.now ≤ 1048576 }
    requires within { from ≤ length symbols.now }
    ensures gives { Gives itself result (range_end_at symbols.now from) }
    ensures some { IfOk result (λ read. from < read.1) }
    ensures end { IfOk result (λ read. read.1 ≤ length symbols.now) }
{
    if !is_at(symbols, from + 1, Symbol::Colon) {
        return Err(ParseError::Syntax { token: from + 1 });
    }
    if !is_high(symbol_at(symbols, from + 2)) {
        return Err(ParseError::Syntax { token: from + 2 });
    }
    if !is_at(symbols, from + 3, Symbol::CloseBracket) {
        return Err(ParseError::Syntax { token: from + 3 });
    }
    Ok((Some(from + 2), from + 4))
}

/// The counts of a repetition and the bracket that closes it; gives the token of the upper count.
#[tactic(auto, using(crate::proofs::Loops::stopped), unfolding(crate::specs::inner::SereReaders::counts_at))]
fn read_counts(symbols: &[Symbol], from: u32) -> Result<(Option<u32>, u32), ParseError>
    requires few { length symbols.now ≤ 1048576 }
    requires within { from ≤ length symbols.now }
    ensures gives { Gives itself result (counts_at symbols.now from) }
    ensures some { IfOk result (λ read. from < read.1) }
    ensures end { IfOk result (λ read. read.1 ≤ length symbols.now) }
{
    if !is_at(symbols, from, Symbol::Number) {
        return Err(ParseError::Syntax { token: from });
    }
    if is_at(symbols, from + 1, Symbol::CloseBracket) {
        return Ok((None, from + 2));
    }
    read_range_end(symbols, from)
}

/// A repetition with counts, from its mark on.
#[tactic(auto, using(crate::proofs::Loops::stopped), unfolding(crate::specs::inner::SereReaders::counted_at))]
fn read_counted(symbols: &[Symbol], from: u32) -> Result<(RawRep, u32), ParseError>
    requires few { length symbols.now ≤ 1048576 }
    requires within { from ≤ length symbols.now }
    requires begun { from < length symbols.now }
    ensures gives { Gives itself result (counted_at symbols.now from) }
    ensures some { IfOk result (λ read. from < read.1) }
    ensures end { IfOk result (λ read. read.1 ≤ length symbols.now) }
{
    let (high, to) = read_counts(symbols, from + 1)?;
    Ok((rep(from, Some(from + 1), high), to))
}

/// A repetition of anything.
#[tactic(auto, using(crate::proofs::Loops::stopped), unfolding(crate::specs::inner::SereReaders::times_at))]
fn read_times(symbols: &[Symbol], from: u32) -> Result<(RawRep, u32), ParseError>
    requires few { length symbols.now ≤ 1048576 }
    requires within { from ≤ length symbols.now }
    ensures gives { Gives itself result (times_at symbols.now from) }
    ensures some { IfOk result (λ read. from < read.1) }
    ensures end { IfOk result (λ read. read.1 ≤ length symbols.now) }
{
    if is_at(symbols, from, Symbol::RepeatPlus) {
        return Ok((rep(from, None, None), from + 1));
    }
    if !is_at(symbols, from, Symbol::RepeatOpen) {
        return Err(ParseError::Syntax { token: from });
    }
    if is_at(symbols, from + 1, Symbol::CloseBracket) {
        return Ok((rep(from, None, None), from + 2));
    }
    read_counted(symbols, from)
}

/// A repetition of a bool alone.
#[tactic(auto, using(crate::proofs::Loops::stopped), unfolding(crate::specs::inner::SereReaders::pick_at))]
fn read_pick(symbols: &[Symbol], from: u32) -> Result<(RawRep, u32), ParseError>
    requires few { length symbols.now ≤ 1048576 }
    requires within { from ≤ length symbols.now }
    requires here { is_pick (symbol_at symbols.now from) ≡ true }
    ensures gives { Gives itself result (pick_at symbols.now from) }
    ensures some { IfOk result (λ read. from < read.1) }
    ensures end { IfOk result (λ read. read.1 ≤ length symbols.now) }
{
    if is_at(symbols, from + 1, Symbol::CloseBracket) {
        if !is_at(symbols, from, Symbol::GotoOpen) {
            return Err(ParseError::Syntax { token: from + 1 });
        }
        return Ok((rep(from, None, None), from + 2));
    }
    read_counted(symbols, from)
}

/// One more repetition behind a sequence.
#[tactic(auto, using(crate::proofs::Loops::stopped), unfolding(crate::specs::inner::SereReaders::again_with))]
fn read_again(
    alloc: Global,
    symbols: &[Symbol],
    sere: RawSere,
    mark: u32,
) -> Result<(RawSere, u32), ParseError>
    requires few { length symbols.now ≤ 1048576 }
    requires within { mark ≤ length symbols.now }
    ensures gives { Gives sere_read result (again_with symbols.now (sere_of sere, mark)) }
    ensures some { IfOk result (λ read. mark < read.1) }
    ensures end { IfOk result (λ read. read.1 ≤ length symbols.now) }
{
    let (rep, to) = read_times(symbols, mark)?;
    let whole = repeated(alloc, sere, rep)?;
    Ok((whole, to))
}

fn repeats(symbols: &[Symbol], place: u32) -> bool
    ensures { result ≡ times_go symbols.now place }
{
    is_times(symbol_at(symbols, place))
}

/// The repetitions of anything behind what they repeat.
#[tactic(auto, using(crate::proofs::Loops::stopped), unfolding(crate::specs::inner::SereReaders::times_from))]
fn read_repetitions(
    alloc: Global,
    symbols: &[Symbol],
    base: RawSere,
    end: u32,
) -> Result<(RawSere, u32), ParseError>
    requires few { length symbols.now ≤ 1048576 }
    requires within { end ≤ length symbols.now }
    ensures gives { Gives sere_read result (times_from symbols.now (sere_of base, end)) }
    ensures some { IfOk result (λ read. end ≤ read.1) }
    ensures end { IfOk result (λ read. read.1 ≤ length symbols.now) }
{
    let mut sere = base;
    let mut to = end;
    'times: while repeats(symbols, to) {
        match read_again(alloc, symbols, sere, to) {
            Ok((whole, after)) => {
                sere = whole;
                to = after;
            }
            Err(error) => return Err(error),
        }
    }
    Ok((sere, to))
}

/// The repetitions behind a bool.
#[tactic(auto, using(crate::proofs::Loops::stopped), unfolding(crate::specs::inner::SereReaders::after_bool))]
pub fn read_after_bool(
    alloc: Global,
    symbols: &[Symbol],
    expr: RawExpr,
    end: u32,
) -> Result<(RawSere, u32), ParseError>
    requires few { length symbols.now ≤ 1048576 }
    requires within { end ≤ length symbols.now }
    ensures gives { Gives sere_read result (after_bool symbols.now (expr_of expr, end)) }
    ensures some { IfOk result (λ read. end ≤ read.1) }
    ensures end { IfOk result (λ read. read.1 ≤ length symbols.now) }
{
    if is_pick(symbol_at(symbols, end)) {
        let (rep, after) = read_pick(symbols, end)?;
        let picked = repeated(alloc, RawSere::Bool(expr), rep)?;
        return read_repetitions(alloc, symbols, picked, after);
    }
    read_repetitions(alloc, symbols, RawSere::Bool(expr), end)
}

/// A bool with its repetitions.
#[tactic(auto, using(crate::proofs::Loops::stopped), unfolding(crate::specs::inner::SereReaders::timed_in))]
fn read_timed(
    alloc: Global,
    symbols: &[Symbol],
    room: u32,
    braced: bool,
    from: u32,
) -> Result<(RawSere, u32), ParseError>
    requires few { length symbols.now ≤ 1048576 }
    requires within { from ≤ length symbols.now }
    requires room { room ≤ 64 }
    ensures gives { Gives sere_read result (timed_in symbols.now room braced from) }
    ensures some { IfOk result (λ read. from < read.1) }
    ensures end { IfOk result (λ read. read.1 ≤ length symbols.now) }
{
    let (expr, end) = read_bool(alloc, symbols, room, braced, from)?;
    read_after_bool(alloc, symbols, expr, end)
}

/// A repetition that stands alone.
#[tactic(auto, using(crate::proofs::Loops::stopped), unfolding(crate::specs::inner::SereReaders::lone_at))]
fn read_lone(symbols: &[Symbol], from: u32) -> Result<(RawSere, u32), ParseError>
    requires few { length symbols.now ≤ 1048576 }
    requires within { from ≤ length symbols.now }
    ensures gives { Gives sere_read result (lone_at symbols.now from) }
    ensures some { IfOk result (λ read. from < read.1) }
    ensures end { IfOk result (λ read. read.1 ≤ length symbols.now) }
{
    let (rep, to) = read_times(symbols, from)?;
    Ok((RawSere::Lone(rep), to))
}

/// A sequence of any operators inside one more open phrase.
#[cycle(sere)]
#[tactic(auto, unfolding(crate::specs::inner::SereReaders::cat_at))]
fn open_cat(
    alloc: Global,
    symbols: &[Symbol],
    room: u32,
    from: u32,
) -> Result<(RawSere, u32), ParseError>
    requires few { length symbols.now ≤ 1048576 }
    requires within { from ≤ length symbols.now }
    requires room { room ≤ 64 }
    ensures gives { Gives sere_read result (cat_at symbols.now room from) }
    ensures some { IfOk result (λ read. from < read.1) }
    ensures end { IfOk result (λ read. read.1 ≤ length symbols.now) }
{
    if room == 0 {
        return Err(ParseError::TooDeep { token: from });
    }
    read_sere(alloc, symbols, room - 1, 5, from)
}

/// A sequence whose operators are of so many levels above that of an elem.
#[cycle(sere)]
#[tactic(auto, using(crate::proofs::Loops::stopped), unfolding(crate::specs::inner::SereReaders::levels_above))]
fn read_sere(
    alloc: Global,
    symbols: &[Symbol],
    room: u32,
    above: u32,
    from: u32,
) -> Result<(RawSere, u32), ParseError>
    requires few { length symbols.now ≤ 1048576 }
    requires within { from ≤ length symbols.now }
    requires room { room ≤ 64 }
    requires levels { above ≤ 5 }
    ensures gives { Gives sere_read result (levels_above symbols.now (elem_in symbols.now room) above from) }
    ensures some { IfOk result (λ read. from < read.1) }
    ensures end { IfOk result (λ read. read.1 ≤ length symbols.now) }
{
    if above == 0 {
        return read_elem(alloc, symbols, room, from);
    }
    let (left, to) = read_sere(alloc, symbols, room, above - 1, from)?;
    read_sere_joins(alloc, symbols, room, above, left, to)
}

/// What operators of one level join to a sequence that was read.
#[cycle(sere)]
#[tactic(auto, using(crate::proofs::Loops::stopped))]
fn read_sere_joins(
    alloc: Global,
    symbols: &[Symbol],
    room: u32,
    above: u32,
    first: RawSere,
    end: u32,
) -> Result<(RawSere, u32), ParseError>
    requires few { length symbols.now ≤ 1048576 }
    requires within { end ≤ length symbols.now }
    requires room { room ≤ 64 }
    requires some_level { 1 ≤ above }
    requires levels { above ≤ 5 }
    ensures gives { Gives sere_read result (loop (sere_joins symbols.now (suc above))
        (sere_join_with symbols.now (levels_above symbols.now (elem_in symbols.now room) (above - 1)))
        (suc (length symbols.now)) (sere_of first, end)) }
    ensures some { IfOk result (λ read. end ≤ read.1) }
    ensures end { IfOk result (λ read. read.1 ≤ length symbols.now) }
{
    let mut left = first;
    let mut to = end;
    'joins: while sere_joins(symbols, above, to) {
        match read_sere_join(alloc, symbols, room, above, left, to) {
            Ok((whole, after)) => {
                left = whole;
                to = after;
            }
            Err(error) => return Err(error),
        }
    }
    Ok((left, to))
}

/// An operator of sequences and its right operand, behind its left one.
#[cycle(sere)]
#[tactic(auto, using(crate::proofs::Loops::stopped), unfolding(crate::specs::inner::SereReaders::sere_join_with))]
fn read_sere_join(
    alloc: Global,
    symbols: &[Symbol],
    room: u32,
    above: u32,
    left: RawSere,
    mark: u32,
) -> Result<(RawSere, u32), ParseError>
    requires few { length symbols.now ≤ 1048576 }
    requires within { mark ≤ length symbols.now }
    requires room { room ≤ 64 }
    requires some_level { 1 ≤ above }
    requires levels { above ≤ 5 }
    requires goes { sere_joins symbols.now (suc above) mark ≡ true }
    ensures gives { Gives sere_read result (sere_join_with symbols.now
        (levels_above symbols.now (elem_in symbols.now room) (above - 1)) (sere_of left, mark)) }
    ensures some { IfOk result (λ read. mark < read.1) }
    ensures end { IfOk result (λ read. read.1 ≤ length symbols.now) }
{
    let (right, to) = read_sere(alloc, symbols, room, above - 1, mark + 1)?;
    let whole = joined(alloc, mark, left, right)?;
    Ok((whole, to))
}

fn sere_joins(symbols: &[Symbol], above: u32, place: u32) -> bool
    requires levels { above ≤ 5 }
    ensures { result ≡ sere_joins symbols.now (suc above) place }
{
    sere_level(symbol_at(symbols, place)) == above + 1
}

/// What operators join inside braces, with its repetitions.
#[cycle(sere)]
#[tactic(auto, using(crate::proofs::Loops::stopped), unfolding(crate::specs::inner::SereReaders::elem_with))]
fn read_elem(
    alloc: Global,
    symbols: &[Symbol],
    room: u32,
    from: u32,
) -> Result<(RawSere, u32), ParseError>
    requires few { length symbols.now ≤ 1048576 }
    requires within { from ≤ length symbols.now }
    requires room { room ≤ 64 }
    ensures gives { Gives sere_read result (elem_in symbols.now room from) }
    ensures some { IfOk result (λ read. from < read.1) }
    ensures end { IfOk result (λ read. read.1 ≤ length symbols.now) }
{
    if begins_sequence(symbol_at(symbols, from)) {
        return read_tight(alloc, symbols, room, from);
    }
    read_timed(alloc, symbols, room, true, from)
}

/// A sequence that is no bool, with its repetitions.
#[cycle(sere)]
#[tactic(auto, using(crate::proofs::Loops::stopped), unfolding(crate::specs::inner::SereReaders::tight_with))]
pub fn read_tight(
    alloc: Global,
    symbols: &[Symbol],
    room: u32,
    from: u32,
) -> Result<(RawSere, u32), ParseError>
    requires few { length symbols.now ≤ 1048576 }
    requires within { from ≤ length symbols.now }
    requires room { room ≤ 64 }
    ensures gives { Gives sere_read result (tight_in symbols.now room from) }
    ensures some { IfOk result (λ read. from < read.1) }
    ensures end { IfOk result (λ read. read.1 ≤ length symbols.now) }
{
    let (base, end) = read_base(alloc, symbols, room, from)?;
    read_repetitions(alloc, symbols, base, end)
}

/// What the repetitions follow in a sequence that is no bool.
#[cycle(sere)]
#[tactic(auto, using(crate::proofs::Loops::stopped), unfolding(crate::specs::inner::SereReaders::base_with))]
fn read_base(
    alloc: Global,
    symbols: &[Symbol],
    room: u32,
    from: u32,
) -> Result<(RawSere, u32), ParseError>
    requires few { length symbols.now ≤ 1048576 }
    requires within { from ≤ length symbols.now }
    requires room { room ≤ 64 }
    ensures gives { Gives sere_read result (base_with symbols.now (cat_at symbols.now room) from) }
    ensures some { IfOk result (λ read. from < read.1) }
    ensures end { IfOk result (λ read. read.1 ≤ length symbols.now) }
{
    if is_at(symbols, from, Symbol::OpenBrace) {
        return read_braces(alloc, symbols, room, from);
    }
    if is_at(symbols, from, Symbol::SequenceName) {
        return Ok((RawSere::Name(from), from + 1));
    }
    read_lone(symbols, from)
}

/// A sequence in braces.
#[cycle(sere)]
#[tactic(auto, using(crate::proofs::Loops::stopped), unfolding(crate::specs::inner::SereReaders::braces_with))]
fn read_braces(
    alloc: Global,
    symbols: &[Symbol],
    room: u32,
    from: u32,
) -> Result<(RawSere, u32), ParseError>
    requires few { length symbols.now ≤ 1048576 }
    requires within { from ≤ length symbols.now }
    requires room { room ≤ 64 }
    requires here { is_at symbols.now from Symbol.OpenBrace ≡ true }
    ensures gives { Gives sere_read result (braces_with symbols.now (cat_at symbols.now room) from) }
    ensures some { IfOk result (λ read. from < read.1) }
    ensures end { IfOk result (λ read. read.1 ≤ length symbols.now) }
{
    let (sere, to) = open_cat(alloc, symbols, room, from + 1)?;
    if !is_at(symbols, to, Symbol::CloseBrace) {
        return Err(ParseError::Syntax { token: to });
    }
    Ok((sere, to + 1))
}
