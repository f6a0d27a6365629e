//! Reading the items of a unit, and the unit.

ghost use Rattle.std.specs.Prelude.{◌≡◌, ◌<◌, ◌≤◌, ◌+◌, ◌∷◌, ◌++◌, ℕ, true, false, List, All, length, map, Some, []};
ghost use Rattle.std.specs.Prelude.{IfOk, IfErr, MatchResult};
ghost use Rattle.psl_grammar.specs.RawUnit as raw;
ghost use Rattle.psl_grammar.specs.UnitView.{item_of, unit_of};
ghost use Rattle.psl_lexer.specs.Order.{LiesWithin};
ghost use Rattle.unit_reader.specs.declared.errors.ParseError.TheVariants.{OutOfMemory};
ghost use Rattle.psl_grammar.specs.Units.{Known, symbols_in, outside, known_after, IsUnit};
ghost use Rattle.unit_reader.specs.inner.Answers.{Gives, Halts};
ghost use Rattle.unit_reader.specs.inner.ReadViews.{item_read, items_read};
ghost use Rattle.unit_reader.specs.inner.Steps.{is_at};
ghost use Rattle.unit_reader.specs.inner.ItemReaders.{is_short};
ghost use Rattle.unit_reader.specs.inner.Namesakes.{AreNoted};
ghost use Rattle.unit_reader.specs.inner.UnitReaders.{short_at, items_at, unit_end, bound_unit, unit_read};

use crate::classes::{classify, learn_name};
use crate::errors::ParseError;
use crate::items::{name_here, read_item};
use crate::namesakes::{Namesakes, note_names};
use crate::symbols::is_at;
use psl_grammar::{RawItem, RawUnit, Symbol};
use psl_lexer::Token;
use std::alloc::Global;

/// How many tokens an item other than `wire` may have.
const ITEM_TOKENS: u32 = 2048;

/// Whether an item has no more tokens than one may have.
fn is_short(item: &RawItem, from: u32, to: u32) -> bool
    requires { from ≤ 1048576 }
    ensures { result ≡ is_short (item_of item.now) from to }
{
    match item {
        RawItem::Wire { .. } => true,
        _ => to <= from + ITEM_TOKENS,
    }
}

/// An item that is no longer than one may be.
#[tactic(auto, using(crate::proofs::Loops::stopped), unfolding(crate::specs::inner::UnitReaders::short_at))]
fn read_short_item(
    alloc: Global,
    symbols: &[Symbol],
    from: u32,
) -> Result<(RawItem, u32), ParseError>
    requires few { length symbols.now ≤ 1048576 }
    requires within { from ≤ length symbols.now }
    ensures gives { Gives item_read result (short_at symbols.now from) }
    ensures some { IfOk result (λ read. from < read.1) }
    ensures end { IfOk result (λ read. read.1 ≤ length symbols.now) }
{
    let (item, to) = read_item(alloc, symbols, from)?;
    if !is_short(&item, from, to) {
        return Err(ParseError::TooDeep {
            token: from + ITEM_TOKENS,
        });
    }
    Ok((item, to))
}

/// What the grammar sees of tokens behind an item.
fn behind_item(
    alloc: Global,
    text: &[u8],
    tokens: &[Token],
    names: &Namesakes,
    symbols: Vec<Symbol>,
    item: &RawItem,
) -> Result<Vec<Symbol>, ParseError>
    requires few { length tokens.now ≤ 1048576 }
    requires within { All (LiesWithin text.now) tokens.now }
    requires many { length symbols.items ≡ length tokens.now }
    requires noted { AreNoted text.now tokens.now (length tokens.now) names.now }
    ensures known { (known : Known) → symbols.items ≡ symbols_in text.now known tokens.now
        → IfOk result (λ all. all.items ≡ symbols_in text.now (known_after text.now tokens.now known (item_of item.now))
        tokens.now) }
    ensures full { IfErr result (λ error. error ≡ OutOfMemory) }
{
    match item {
        RawItem::Sequence { name, .. } => {
            learn_name(
                alloc,
                text,
                tokens,
                names,
                symbols,
                *name,
                Symbol::SequenceName,
            )
        }
        RawItem::Property { name, .. } => {
            learn_name(
                alloc,
                text,
                tokens,
                names,
                symbols,
                *name,
                Symbol::PropertyName,
            )
        }
        _ => Ok(symbols),
    }
}

/// An item, and what the grammar sees of tokens behind it.
fn read_step(
    alloc: Global,
    text: &[u8],
    tokens: &[Token],
    names: &Namesakes,
    symbols: Vec<Symbol>,
    from: u32,
) -> Result<(RawItem, Vec<Symbol>, u32), ParseError>
    requires few { length symbols.items ≤ 1048576 }
    requires tokens { length tokens.now ≡ length symbols.items }
    requires within { All (LiesWithin text.now) tokens.now }
    requires place { from ≤ length symbols.items }
    requires noted { AreNoted text.now tokens.now (length tokens.now) names.now }
    ensures item { MatchResult result (λ read. short_at symbols.items from ≡ Some (item_of read.0, read.2))
        (λ error. Halts error (short_at symbols.items from)) }
    ensures known { (known : Known) → symbols.items ≡ symbols_in text.now known tokens.now
        → IfOk result (λ read. read.1.items ≡ symbols_in text.now
        (known_after text.now tokens.now known (item_of read.0)) tokens.now) }
    ensures some { IfOk result (λ read. from < read.2) }
    ensures end { IfOk result (λ read. read.2 ≤ length symbols.items) }
{
    match read_short_item(alloc, &symbols, from) {
        Err(error) => Err(error),
        Ok((item, to)) => match behind_item(alloc, text, tokens, names, symbols, &item) {
            Err(_) => Err(ParseError::OutOfMemory),
            Ok(all) => Ok((item, all, to)),
        },
    }
}

fn put(items: Vec<RawItem>, item: RawItem) -> Result<Vec<RawItem>, ParseError>
    ensures { MatchResult result (λ all. map item_of all.items ≡ map item_of items.items ++ item_of item ∷ [])
        (λ error. error ≡ OutOfMemory) }
{
    let mut all = items;
    match all.push(item) {
        Ok(()) => Ok(all),
        Err(_) => Err(ParseError::OutOfMemory),
    }
}

/// The items of a unit, up to the `}` behind them.
fn read_items(
    alloc: Global,
    text: &[u8],
    tokens: &[Token],
    plain: &[Symbol],
    from: u32,
) -> Result<(Vec<RawItem>, u32), ParseError>
    requires few { length tokens.now ≤ 1048576 }
    requires within { All (LiesWithin text.now) tokens.now }
    requires place { from ≤ length tokens.now }
    requires plain { plain.now ≡ outside text.now tokens.now }
    ensures gives { Gives items_read result (items_at text.now tokens.now from) }
    ensures end { IfOk result (λ read. read.1 ≤ length tokens.now) }
{
    let mut symbols = match classify(alloc, tokens) {
        Ok(symbols) => symbols,
        Err(_) => return Err(ParseError::OutOfMemory),
    };
    let names = match note_names(alloc, text, tokens) {
        Ok(names) => names,
        Err(_) => return Err(ParseError::OutOfMemory),
    };
    let mut items = Vec::new(alloc);
    let mut to = from;
    'items: while !is_at(plain, to, Symbol::CloseBrace) {
        match read_step(alloc, text, tokens, &names, symbols, to) {
            Err(error) => return Err(error),
            Ok((item, next, after)) => {
                match put(items, item) {
                    Err(_) => return Err(ParseError::OutOfMemory),
                    Ok(all) => {
                        items = all;
                    }
                }
                symbols = next;
                to = after;
            }
        }
    }
    Ok((items, to))
}

/// The end of a unit behind its items.
#[tactic(auto, unfolding(crate::specs::inner::UnitReaders::unit_end))]
fn close_unit(
    text: &[u8],
    tokens: &[Token],
    items: Vec<RawItem>,
    to: u32,
) -> Result<RawUnit, ParseError>
    requires few { length tokens.now ≤ 1048576 }
    requires place { to ≤ length tokens.now }
    ensures gives { Gives unit_of result (unit_end text.now tokens.now (map item_of items.items, to)) }
{
    if tokens.len() as u32 != to + 1 {
        return Err(ParseError::Syntax { token: to + 1 });
    }
    Ok(RawUnit { name: 1, items })
}

/// A unit that names a module to be bound to.
#[tactic(auto, using(crate::proofs::Loops::stopped), unfolding(crate::specs::inner::UnitReaders::bound_unit))]
fn read_bound(
    alloc: Global,
    text: &[u8],
    tokens: &[Token],
    plain: &[Symbol],
) -> Result<RawUnit, ParseError>
    requires few { length tokens.now ≤ 1048576 }
    requires within { All (LiesWithin text.now) tokens.now }
    requires plain { plain.now ≡ outside text.now tokens.now }
    ensures gives { Gives unit_of result (bound_unit text.now tokens.now) }
{
    if !is_at(plain, 2, Symbol::OpenParenthesis) {
        return Err(ParseError::Syntax { token: 2 });
    }
    if !name_here(plain, 3) {
        return Err(ParseError::Syntax { token: 3 });
    }
    if !is_at(plain, 4, Symbol::CloseParenthesis) {
        return Err(ParseError::Syntax { token: 4 });
    }
    if !is_at(plain, 5, Symbol::OpenBrace) {
        return Err(ParseError::Syntax { token: 5 });
    }
    let (items, to) = read_items(alloc, text, tokens, plain, 6)?;
    close_unit(text, tokens, items, to)
}

/// The unit that tokens are.
#[tactic(auto, using(crate::proofs::Loops::stopped), unfolding(crate::specs::inner::UnitReaders::unit_read))]
fn read_whole(
    alloc: Global,
    text: &[u8],
    tokens: &[Token],
    plain: &[Symbol],
) -> Result<RawUnit, ParseError>
    requires few { length tokens.now ≤ 1048576 }
    requires within { All (LiesWithin text.now) tokens.now }
    requires plain { plain.now ≡ outside text.now tokens.now }
    ensures { Gives unit_of result (unit_read text.now tokens.now) }
{
    if !is_at(plain, 0, Symbol::Vunit) {
        return Err(ParseError::Syntax { token: 0 });
    }
    if !name_here(plain, 1) {
        return Err(ParseError::Syntax { token: 1 });
    }
    if !is_at(plain, 2, Symbol::OpenBrace) {
        return read_bound(alloc, text, tokens, plain);
    }
    let (items, to) = read_items(alloc, text, tokens, plain, 3)?;
    close_unit(text, tokens, items, to)
}

/// The unit that the tokens of a text are, exactly where they are one. Else `TooDeep` where the parser met a token that
/// stands in too many open phrases or is one too many of an item, and `Syntax` otherwise, with the number of the token
/// at which it stopped. `OutOfMemory` where memory for the tree was refused: then nothing is said of the tokens.
pub fn read_unit(alloc: Global, text: &[u8], tokens: &[Token]) -> Result<RawUnit, ParseError>
    requires few { length tokens.now ≤ 1048576 }
    requires within { All (LiesWithin text.now) tokens.now }
    ensures unit { IfOk result (λ unit. IsUnit text.now tokens.now (unit_of unit)) }
    ensures only { (unit : raw.RawUnit) → IsUnit text.now tokens.now unit
        → MatchResult result (λ found. unit_of found ≡ unit) (λ error. error ≡ OutOfMemory) }
{
    match classify(alloc, tokens) {
        Err(_) => Err(ParseError::OutOfMemory),
        Ok(plain) => read_whole(alloc, text, tokens, &plain),
    }
}
