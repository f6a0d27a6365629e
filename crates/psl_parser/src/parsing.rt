//! The call that parses a unit.

ghost use Rattle.std.specs.Prelude.{◌≡◌, ◌≤◌, All, length, IfOk, IfErr, IfSome, IfNone, MatchResult, IsSomeAnd, IsNone, Some};
ghost use Rattle.psl_grammar.specs.RawUnit as raw;
ghost use Rattle.psl_grammar.specs.UnitView.{unit_of};
ghost use Rattle.psl_grammar.specs.Units.{IsUnit};
ghost use Rattle.psl_lexer.specs.Order.{LiesWithin};
ghost use Rattle.psl_parser.specs.Depth.{NoneTooDeep, IsFirstTooDeep, IsToldRightly};
ghost use Rattle.psl_parser.specs.inner.Walk.{IsFirstOf};
ghost use Rattle.psl_parser.specs.Seen.{seen};
ghost use Rattle.unit_reader.specs.declared.errors.ParseError.TheVariants.{OutOfMemory};

use crate::depth::{Deep, first_deep};
use crate::marks::{may_begin, symbol_at};
use crate::names::seen;
use psl_grammar::{RawUnit, Symbol};
use psl_lexer::Token;
use std::alloc::{AllocError, Global};
use unit_reader::{ParseError, classify, read_unit};

/// The number of a token, or the count of the tokens for the end behind them.
fn token_or_end(token: u32, count: usize) -> u32
    ensures { result ≤ count }
{
    if token as usize <= count {
        return token;
    }
    count as u32
}

/// A fault at the first token that is too deep: one of syntax where no phrase begins with it.
fn fault_at(symbols: &[Symbol], deep: Deep) -> ParseError
    requires first { IsFirstOf symbols.now (Some deep) }
    ensures { IsToldRightly symbols.now result }
{
    let Deep { token, item } = deep;
    if item || may_begin(symbol_at(symbols, token as usize)) {
        return ParseError::TooDeep { token };
    }
    ParseError::Syntax { token }
}

/// A fault of syntax at a token or at the end, unless a token before it is too deep.
fn syntax_at(symbols: &[Symbol], first: Option<Deep>, token: u32) -> ParseError
    requires first { IsFirstOf symbols.now first }
    ensures { IsToldRightly symbols.now result }
{
    let token = token_or_end(token, symbols.len());
    match first {
        Some(deep) if deep.token < token => fault_at(symbols, deep),
        _ => ParseError::Syntax { token },
    }
}

/// A fault of depth at a token, or one of syntax where none up to it is too deep.
fn depth_at(symbols: &[Symbol], first: Option<Deep>, token: u32) -> ParseError
    requires first { IsFirstOf symbols.now first }
    ensures { IsToldRightly symbols.now result }
{
    match first {
        Some(deep) if deep.token <= token => fault_at(symbols, deep),
        _ => syntax_at(symbols, first, token),
    }
}

/// A fault as it is told, where the first token that is too deep is known.
fn told_by(symbols: &[Symbol], first: Option<Deep>, error: ParseError) -> ParseError
    requires first { IsFirstOf symbols.now first }
    ensures memory { error ≡ OutOfMemory → result ≡ OutOfMemory }
    ensures told { IsToldRightly symbols.now result }
{
    match error {
        ParseError::Syntax { token } => syntax_at(symbols, first, token),
        ParseError::TooDeep { token } => depth_at(symbols, first, token),
        ParseError::OutOfMemory => ParseError::OutOfMemory,
    }
}

/// What the grammar sees of each token.
fn symbols_of(alloc: Global, text: &[u8], tokens: &[Token]) -> Result<Vec<Symbol>, AllocError>
    requires few { length tokens.now ≤ 1048576 }
    requires within { All (LiesWithin text.now) tokens.now }
    ensures seen { IfOk result (λ symbols. symbols.items ≡ seen text.now tokens.now) }
    ensures many { IfOk result (λ symbols. length symbols.items ≡ length tokens.now) }
{
    let plain = classify(alloc, tokens)?;
    let symbols = seen(alloc, text, tokens, &plain)?;
    Ok(symbols)
}

/// A fault as it is told.
fn told(alloc: Global, text: &[u8], tokens: &[Token], error: ParseError) -> ParseError
    requires few { length tokens.now ≤ 1048576 }
    requires within { All (LiesWithin text.now) tokens.now }
    ensures memory { error ≡ OutOfMemory → result ≡ OutOfMemory }
    ensures told { IsToldRightly (seen text.now tokens.now) result }
{
    match symbols_of(alloc, text, tokens) {
        Err(_) => ParseError::OutOfMemory,
        Ok(symbols) => match first_deep(alloc, &symbols) {
            Err(_) => ParseError::OutOfMemory,
            Ok(first) => told_by(&symbols, first, error),
        },
    }
}

/// The number of a token that is too deep.
fn token_of(first: Option<Deep>) -> Option<u32>
    ensures none { IfNone result (IsNone first) }
    ensures some { IfSome result (λ token. IsSomeAnd first (λ deep. deep.token ≡ token)) }
{
    match first {
        None => None,
        Some(deep) => Some(deep.token),
    }
}

/// The first token of a text that stands in 65 open phrases or is the 2,049th of an item other than `wire`, none where
/// there is none. It is told by the tokens alone, whether or not they are a unit.
pub fn first_too_deep(
    alloc: Global,
    text: &[u8],
    tokens: &[Token],
) -> Result<Option<u32>, AllocError>
    requires few { length tokens.now ≤ 1048576 }
    requires within { All (LiesWithin text.now) tokens.now }
    ensures some { IfOk result (λ found. IfSome found (IsFirstTooDeep (seen text.now tokens.now))) }
    ensures none { IfOk result (λ found. IfNone found (NoneTooDeep (seen text.now tokens.now) (length tokens.now))) }
{
    match symbols_of(alloc, text, tokens) {
        Err(error) => Err(error),
        Ok(symbols) => match first_deep(alloc, &symbols) {
            Err(error) => Err(error),
            Ok(first) => Ok(token_of(first)),
        },
    }
}

/// The unit that the tokens of a text are, exactly where they are one. Else `TooDeep` with the first token that stands
/// in too many open phrases or is one too many of an item, where the parser read up to it, and `Syntax` otherwise, with
/// the number of the token at which it stopped. `OutOfMemory` where memory was refused: then nothing is said of the
/// tokens.
pub fn parse_unit(alloc: Global, text: &[u8], tokens: &[Token]) -> Result<RawUnit, ParseError>
    requires few { length tokens.now ≤ 1048576 }
    requires within { All (LiesWithin text.now) tokens.now }
    ensures unit { IfOk result (λ unit. IsUnit text.now tokens.now (unit_of unit)) }
    ensures only { (unit : raw.RawUnit) → IsUnit text.now tokens.now unit
        → MatchResult result (λ found. unit_of found ≡ unit) (λ error. error ≡ OutOfMemory) }
    ensures told { IfErr result (λ error. IsToldRightly (seen text.now tokens.now) error) }
{
    match read_unit(alloc, text, tokens) {
        Ok(unit) => Ok(unit),
        Err(error) => Err(told(alloc, text, tokens, error)),
    }
}
