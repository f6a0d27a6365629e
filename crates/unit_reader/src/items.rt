//! Reading an item of a unit.

ghost use Rattle.std.specs.Prelude.{◌≡◌, ◌<◌, ◌≤◌, ◌+◌, ◌∷◌, [], suc, true, length, Some, None, Option, IfOk};
ghost use Rattle.std.specs.Prelude.{MatchResult};
ghost use Rattle.unit_reader.specs.declared.errors.ParseError.TheVariants.{OutOfMemory};
ghost use Rattle.psl_grammar.specs.View.{sere_of, prop_of};
ghost use Rattle.unit_reader.specs.inner.Answers.{Gives};
ghost use Rattle.unit_reader.specs.inner.ReadViews.{sere_read, prop_read, item_read, list_read, names_read, itself};
ghost use Rattle.unit_reader.specs.inner.Steps.{is_at, loop};
ghost use Rattle.unit_reader.specs.inner.ItemReaders.{name_here, comma_at, name_after, names_at, whole_prop, whole_seq};
ghost use Rattle.unit_reader.specs.inner.ItemReaders.{report_at, clock_parens_at, clock_at, wire_end, wire_at};
ghost use Rattle.unit_reader.specs.inner.ItemReaders.{sequence_end, sequence_at, property_end, property_at, assert_end};
ghost use Rattle.unit_reader.specs.inner.ItemReaders.{labelled_at, item_at};

use crate::errors::ParseError;
use crate::next_forms::read_range;
use crate::operators::as_sequence;
use crate::properties::read_prop;
use crate::symbols::{is_at, is_name, symbol_at};
use psl_grammar::{RawItem, RawProp, RawSere, Symbol, TokenList};
use std::alloc::Global;

/// In how many open phrases a token of an item may stand.
const OPEN_PHRASES: u32 = 64;

pub fn name_here(symbols: &[Symbol], place: u32) -> bool
    ensures { result ≡ name_here symbols.now place }
{
    is_name(symbol_at(symbols, place))
}

/// One more name behind names, from a `,` on.
#[tactic(auto, using(crate::proofs::Loops::stopped), unfolding(crate::specs::inner::ItemReaders::name_after))]
fn read_name_after(
    symbols: &[Symbol],
    names: Vec<u32>,
    mark: u32,
) -> Result<(Vec<u32>, u32), ParseError>
    requires few { length symbols.now ≤ 1048576 }
    requires within { mark ≤ length symbols.now }
    ensures gives { Gives list_read result (name_after symbols.now (names.items, mark)) }
    ensures some { IfOk result (λ read. mark < read.1) }
    ensures end { IfOk result (λ read. read.1 ≤ length symbols.now) }
{
    let mut all = names;
    if !name_here(symbols, mark + 1) {
        return Err(ParseError::Syntax { token: mark + 1 });
    }
    match all.push(mark + 1) {
        Ok(()) => Ok((all, mark + 2)),
        Err(_) => Err(ParseError::OutOfMemory),
    }
}

/// Names behind the first one.
#[tactic(auto, using(crate::proofs::Loops::stopped))]
fn read_names_from(
    symbols: &[Symbol],
    first: Vec<u32>,
    end: u32,
) -> Result<(Vec<u32>, u32), ParseError>
    requires few { length symbols.now ≤ 1048576 }
    requires within { end ≤ length symbols.now }
    ensures gives { Gives list_read result (loop (comma_at symbols.now) (name_after symbols.now)
        (suc (length symbols.now)) (first.items, end)) }
    ensures some { IfOk result (λ read. end ≤ read.1) }
    ensures end { IfOk result (λ read. read.1 ≤ length symbols.now) }
{
    let mut names = first;
    let mut to = end;
    'names: while is_at(symbols, to, Symbol::Comma) {
        match read_name_after(symbols, names, to) {
            Ok((whole, after)) => {
                names = whole;
                to = after;
            }
            Err(error) => return Err(error),
        }
    }
    Ok((names, to))
}

fn one_name(alloc: Global, name: u32) -> Result<Vec<u32>, ParseError>
    ensures { MatchResult result (λ names. names.items ≡ name ∷ []) (λ error. error ≡ OutOfMemory) }
{
    let mut names = Vec::new(alloc);
    match names.push(name) {
        Ok(()) => Ok(names),
        Err(_) => Err(ParseError::OutOfMemory),
    }
}

/// Names with `,` between them.
#[tactic(auto, using(crate::proofs::Loops::stopped), unfolding(crate::specs::inner::ItemReaders::names_at))]
fn read_names(alloc: Global, symbols: &[Symbol], from: u32) -> Result<(TokenList, u32), ParseError>
    requires few { length symbols.now ≤ 1048576 }
    requires within { from ≤ length symbols.now }
    ensures gives { Gives names_read result (names_at symbols.now from) }
    ensures some { IfOk result (λ read. from < read.1) }
    ensures end { IfOk result (λ read. read.1 ≤ length symbols.now) }
{
    if !name_here(symbols, from) {
        return Err(ParseError::Syntax { token: from });
    }
    let first = one_name(alloc, from)?;
    let (names, to) = read_names_from(symbols, first, from + 1)?;
    Ok((TokenList::new(names), to))
}

/// A property that stands in no open phrase.
#[tactic(auto, using(crate::proofs::Loops::stopped), unfolding(crate::specs::inner::ItemReaders::whole_prop))]
fn read_whole_prop(
    alloc: Global,
    symbols: &[Symbol],
    from: u32,
) -> Result<(RawProp, u32), ParseError>
    requires few { length symbols.now ≤ 1048576 }
    requires within { from ≤ length symbols.now }
    ensures gives { Gives prop_read result (whole_prop symbols.now from) }
    ensures some { IfOk result (λ read. from < read.1) }
    ensures end { IfOk result (λ read. read.1 ≤ length symbols.now) }
{
    read_prop(alloc, symbols, OPEN_PHRASES, from)
}

/// A sequence that stands in no open phrase.
#[tactic(auto, using(crate::proofs::Loops::stopped), unfolding(crate::specs::inner::ItemReaders::whole_seq))]
fn read_whole_seq(
    alloc: Global,
    symbols: &[Symbol],
    from: u32,
) -> Result<(RawSere, u32), ParseError>
    requires few { length symbols.now ≤ 1048576 }
    requires within { from ≤ length symbols.now }
    ensures gives { Gives sere_read result (whole_seq symbols.now from) }
    ensures some { IfOk result (λ read. from < read.1) }
    ensures end { IfOk result (λ read. read.1 ≤ length symbols.now) }
{
    let (prop, to) = read_whole_prop(alloc, symbols, from)?;
    if is_at(symbols, to - 1, Symbol::CloseParenthesis) {
        return Err(ParseError::Syntax { token: to });
    }
    match as_sequence(prop) {
        Some(sere) => Ok((sere, to)),
        None => Err(ParseError::Syntax { token: to }),
    }
}

/// The end of an assertion, with its report.
#[tactic(auto, using(crate::proofs::Loops::stopped), unfolding(crate::specs::inner::ItemReaders::report_at))]
fn read_report(symbols: &[Symbol], from: u32) -> Result<(Option<u32>, u32), ParseError>
    requires few { length symbols.now ≤ 1048576 }
    requires within { from ≤ length symbols.now }
    ensures gives { Gives itself result (report_at symbols.now from) }
    ensures some { IfOk result (λ read. from < read.1) }
    ensures end { IfOk result (λ read. read.1 ≤ length symbols.now) }
{
    if is_at(symbols, from, Symbol::Semicolon) {
        return Ok((None, from + 1));
    }
    if !is_at(symbols, from, Symbol::Report) {
        return Err(ParseError::Syntax { token: from });
    }
    if !is_at(symbols, from + 1, Symbol::Text) {
        return Err(ParseError::Syntax { token: from + 1 });
    }
    if !is_at(symbols, from + 2, Symbol::Semicolon) {
        return Err(ParseError::Syntax { token: from + 2 });
    }
    Ok((Some(from + 1), from + 3))
}

/// A default clock in parentheses.
#[tactic(auto, using(crate::proofs::Loops::stopped), unfolding(crate::specs::inner::ItemReaders::clock_parens_at))]
fn read_clock_parens(symbols: &[Symbol], from: u32) -> Result<(RawItem, u32), ParseError>
    requires few { length symbols.now ≤ 1048576 }
    requires within { from ≤ length symbols.now }
    ensures gives { Gives item_read result (clock_parens_at symbols.now from) }
    ensures some { IfOk result (λ read. from < read.1) }
    ensures end { IfOk result (λ read. read.1 ≤ length symbols.now) }
{
    if !is_at(symbols, from + 3, Symbol::OpenParenthesis) {
        return Err(ParseError::Syntax { token: from + 3 });
    }
    if !is_at(symbols, from + 4, Symbol::Posedge) {
        return Err(ParseError::Syntax { token: from + 4 });
    }
    if !name_here(symbols, from + 5) {
        return Err(ParseError::Syntax { token: from + 5 });
    }
    if !is_at(symbols, from + 6, Symbol::CloseParenthesis) {
        return Err(ParseError::Syntax { token: from + 6 });
    }
    if !is_at(symbols, from + 7, Symbol::Semicolon) {
        return Err(ParseError::Syntax { token: from + 7 });
    }
    Ok((RawItem::Clock(from + 5), from + 8))
}

/// A default clock.
#[tactic(auto, using(crate::proofs::Loops::stopped), unfolding(crate::specs::inner::ItemReaders::clock_at))]
fn read_clock(symbols: &[Symbol], from: u32) -> Result<(RawItem, u32), ParseError>
    requires few { length symbols.now ≤ 1048576 }
    requires within { from ≤ length symbols.now }
    ensures gives { Gives item_read result (clock_at symbols.now from) }
    ensures some { IfOk result (λ read. from < read.1) }
    ensures end { IfOk result (λ read. read.1 ≤ length symbols.now) }
{
    if !is_at(symbols, from + 1, Symbol::Clock) {
        return Err(ParseError::Syntax { token: from + 1 });
    }
    if !is_at(symbols, from + 2, Symbol::Equal) {
        return Err(ParseError::Syntax { token: from + 2 });
    }
    if !is_at(symbols, from + 3, Symbol::Posedge) {
        return read_clock_parens(symbols, from);
    }
    if !name_here(symbols, from + 4) {
        return Err(ParseError::Syntax { token: from + 4 });
    }
    if !is_at(symbols, from + 5, Symbol::Semicolon) {
        return Err(ParseError::Syntax { token: from + 5 });
    }
    Ok((RawItem::Clock(from + 4), from + 6))
}

/// The end of a declaration of signals.
#[tactic(auto, using(crate::proofs::Loops::stopped), unfolding(crate::specs::inner::ItemReaders::wire_end))]
fn read_wire_end(
    symbols: &[Symbol],
    range: Option<(u32, u32)>,
    names: TokenList,
    end: u32,
) -> Result<(RawItem, u32), ParseError>
    requires few { length symbols.now ≤ 1048576 }
    requires within { end ≤ length symbols.now }
    ensures gives { Gives item_read result (wire_end symbols.now range (names, end)) }
    ensures some { IfOk result (λ read. end < read.1) }
    ensures end { IfOk result (λ read. read.1 ≤ length symbols.now) }
{
    if !is_at(symbols, end, Symbol::Semicolon) {
        return Err(ParseError::Syntax { token: end });
    }
    Ok((RawItem::Wire { range, names }, end + 1))
}

/// A declaration of signals.
#[tactic(auto, using(crate::proofs::Loops::stopped), unfolding(crate::specs::inner::ItemReaders::wire_at))]
fn read_wire(alloc: Global, symbols: &[Symbol], from: u32) -> Result<(RawItem, u32), ParseError>
    requires few { length symbols.now ≤ 1048576 }
    requires within { from ≤ length symbols.now }
    requires begun { from < length symbols.now }
    ensures gives { Gives item_read result (wire_at symbols.now from) }
    ensures some { IfOk result (λ read. from < read.1) }
    ensures end { IfOk result (λ read. read.1 ≤ length symbols.now) }
{
    if is_at(symbols, from + 1, Symbol::OpenBracket) {
        let after = read_range(symbols, from + 1)?;
        let (names, to) = read_names(alloc, symbols, after)?;
        return read_wire_end(symbols, Some((from + 2, from + 4)), names, to);
    }
    let (names, to) = read_names(alloc, symbols, from + 1)?;
    read_wire_end(symbols, None, names, to)
}

/// A named sequence.
#[tactic(auto, using(crate::proofs::Loops::stopped), unfolding(crate::specs::inner::ItemReaders::sequence_at))]
fn read_sequence(alloc: Global, symbols: &[Symbol], from: u32) -> Result<(RawItem, u32), ParseError>
    requires few { length symbols.now ≤ 1048576 }
    requires within { from ≤ length symbols.now }
    ensures gives { Gives item_read result (sequence_at symbols.now from) }
    ensures some { IfOk result (λ read. from < read.1) }
    ensures end { IfOk result (λ read. read.1 ≤ length symbols.now) }
{
    if !name_here(symbols, from + 1) {
        return Err(ParseError::Syntax { token: from + 1 });
    }
    if !is_at(symbols, from + 2, Symbol::Equal) {
        return Err(ParseError::Syntax { token: from + 2 });
    }
    let (body, to) = read_whole_seq(alloc, symbols, from + 3)?;
    if !is_at(symbols, to, Symbol::Semicolon) {
        return Err(ParseError::Syntax { token: to });
    }
    let name = from + 1;
    Ok((RawItem::Sequence { name, body }, to + 1))
}

/// A named property.
#[tactic(auto, using(crate::proofs::Loops::stopped), unfolding(crate::specs::inner::ItemReaders::property_at))]
fn read_property(alloc: Global, symbols: &[Symbol], from: u32) -> Result<(RawItem, u32), ParseError>
    requires few { length symbols.now ≤ 1048576 }
    requires within { from ≤ length symbols.now }
    ensures gives { Gives item_read result (property_at symbols.now from) }
    ensures some { IfOk result (λ read. from < read.1) }
    ensures end { IfOk result (λ read. read.1 ≤ length symbols.now) }
{
    if !name_here(symbols, from + 1) {
        return Err(ParseError::Syntax { token: from + 1 });
    }
    if !is_at(symbols, from + 2, Symbol::Equal) {
        return Err(ParseError::Syntax { token: from + 2 });
    }
    let (body, to) = read_whole_prop(alloc, symbols, from + 3)?;
    if !is_at(symbols, to, Symbol::Semicolon) {
        return Err(ParseError::Syntax { token: to });
    }
    let name = from + 1;
    Ok((RawItem::Property { name, body }, to + 1))
}

/// The end of an assertion behind its property.
#[tactic(auto, using(crate::proofs::Loops::stopped), unfolding(crate::specs::inner::ItemReaders::assert_end))]
fn read_assert_end(
    symbols: &[Symbol],
    word: u32,
    label: Option<u32>,
    body: RawProp,
    end: u32,
) -> Result<(RawItem, u32), ParseError>
    requires few { length symbols.now ≤ 1048576 }
    requires within { end ≤ length symbols.now }
    ensures gives { Gives item_read result (assert_end symbols.now word label (prop_of body, end)) }
    ensures some { IfOk result (λ read. end < read.1) }
    ensures end { IfOk result (λ read. read.1 ≤ length symbols.now) }
{
    let (report, to) = read_report(symbols, end)?;
    let item = RawItem::Assert {
        word,
        label,
        body,
        report,
    };
    Ok((item, to))
}

/// An assertion with its label.
#[tactic(auto, using(crate::proofs::Loops::stopped), unfolding(crate::specs::inner::ItemReaders::labelled_at))]
fn read_labelled(alloc: Global, symbols: &[Symbol], from: u32) -> Result<(RawItem, u32), ParseError>
    requires few { length symbols.now ≤ 1048576 }
    requires within { from ≤ length symbols.now }
    ensures gives { Gives item_read result (labelled_at symbols.now from) }
    ensures some { IfOk result (λ read. from < read.1) }
    ensures end { IfOk result (λ read. read.1 ≤ length symbols.now) }
{
    if !name_here(symbols, from) {
        return Err(ParseError::Syntax { token: from });
    }
    if !is_at(symbols, from + 1, Symbol::Colon) {
        return Err(ParseError::Syntax { token: from + 1 });
    }
    if !is_at(symbols, from + 2, Symbol::Assert) {
        return Err(ParseError::Syntax { token: from + 2 });
    }
    let (body, to) = read_whole_prop(alloc, symbols, from + 3)?;
    read_assert_end(symbols, from + 2, Some(from), body, to)
}

/// An item.
#[tactic(auto, using(crate::proofs::Loops::stopped), unfolding(crate::specs::inner::ItemReaders::item_at))]
pub fn read_item(alloc: Global, symbols: &[Symbol], from: u32) -> Result<(RawItem, u32), ParseError>
    requires few { length symbols.now ≤ 1048576 }
    requires within { from ≤ length symbols.now }
    ensures gives { Gives item_read result (item_at symbols.now from) }
    ensures some { IfOk result (λ read. from < read.1) }
    ensures end { IfOk result (λ read. read.1 ≤ length symbols.now) }
{
    if is_at(symbols, from, Symbol::Default) {
        return read_clock(symbols, from);
    }
    if is_at(symbols, from, Symbol::Wire) {
        return read_wire(alloc, symbols, from);
    }
    if is_at(symbols, from, Symbol::Sequence) {
        return read_sequence(alloc, symbols, from);
    }
    if is_at(symbols, from, Symbol::Property) {
        return read_property(alloc, symbols, from);
    }
    if is_at(symbols, from, Symbol::Assert) {
        let (body, to) = read_whole_prop(alloc, symbols, from + 1)?;
        return read_assert_end(symbols, from, None, body, to);
    }
    read_labelled(alloc, symbols, from)
}
