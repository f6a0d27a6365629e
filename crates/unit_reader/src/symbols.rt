//! The symbol at a place, and what it does in a phrase.

ghost use Rattle.std.specs.Prelude.{◌≡◌, ◌<◌, ◌+◌, ◌^◌};
ghost use Rattle.psl_grammar.specs.Symbols.{symbol_at, after_level, level_at, may_join, begins_sequence, is_prefix};
ghost use Rattle.psl_grammar.specs.Symbols.{is_literal, is_name, sere_level, is_pick, is_high};
ghost use Rattle.unit_reader.specs.inner.Steps.{is_at};
ghost use Rattle.unit_reader.specs.inner.SereReaders.{is_times};
ghost use Rattle.unit_reader.specs.inner.PropReaders.{is_rep};

use psl_grammar::Symbol;

pub fn symbol_at(symbols: &[Symbol], place: u32) -> Symbol
    ensures { result ≡ symbol_at symbols.now place }
{
    match symbols.get(place as usize) {
        Some(symbol) => *symbol,
        None => Symbol::End,
    }
}

pub fn is_at(symbols: &[Symbol], place: u32, symbol: Symbol) -> bool
    ensures { result ≡ is_at symbols.now place symbol }
{
    symbol_at(symbols, place) == symbol
}

pub fn after_level(symbol: Symbol) -> u32
    ensures { result ≡ after_level symbol }
{
    match symbol {
        Symbol::OpenBracket => 0,
        Symbol::Sum => 1,
        Symbol::Shift => 2,
        Symbol::Order => 3,
        Symbol::Equality => 4,
        Symbol::And => 5,
        Symbol::Caret => 6,
        Symbol::Or => 7,
        Symbol::AndAnd => 8,
        Symbol::OrOr => 9,
        Symbol::Question => 10,
        _ => 11,
    }
}

pub fn is_prefix(symbol: Symbol) -> bool
    ensures { result ≡ is_prefix symbol }
{
    matches!(
        symbol,
        Symbol::Exclamation | Symbol::Tilde | Symbol::And | Symbol::Or | Symbol::Caret
    )
}

pub fn is_literal(symbol: Symbol) -> bool
    ensures { result ≡ is_literal symbol }
{
    matches!(symbol, Symbol::Number | Symbol::Literal)
}

/// A name in the places where any name may stand.
pub fn is_name(symbol: Symbol) -> bool
    ensures { result ≡ is_name symbol }
{
    matches!(
        symbol,
        Symbol::Name | Symbol::SequenceName | Symbol::PropertyName
    )
}

fn may_join(symbol: Symbol) -> bool
    ensures { result ≡ may_join symbol }
{
    matches!(symbol, Symbol::And | Symbol::AndAnd | Symbol::Or)
}

pub fn begins_sequence(symbol: Symbol) -> bool
    ensures { result ≡ begins_sequence symbol }
{
    matches!(
        symbol,
        Symbol::OpenBrace | Symbol::RepeatOpen | Symbol::RepeatPlus | Symbol::SequenceName
    )
}

pub fn level_at(braced: bool, symbols: &[Symbol], place: u32) -> u32
    requires { place < 2 ^ 31 }
    ensures { result ≡ level_at braced symbols.now place }
{
    let symbol = symbol_at(symbols, place);
    if braced && may_join(symbol) && begins_sequence(symbol_at(symbols, place + 1)) {
        return 11;
    }
    after_level(symbol)
}

pub fn sere_level(symbol: Symbol) -> u32
    ensures { result ≡ sere_level symbol }
{
    match symbol {
        Symbol::RepeatOpen | Symbol::RepeatPlus | Symbol::GotoOpen | Symbol::EqualRepeatOpen => 0,
        Symbol::Within => 2,
        Symbol::And | Symbol::AndAnd => 3,
        Symbol::Or => 4,
        Symbol::Colon => 5,
        Symbol::Semicolon => 6,
        _ => 7,
    }
}

pub fn is_pick(symbol: Symbol) -> bool
    ensures { result ≡ is_pick symbol }
{
    matches!(symbol, Symbol::GotoOpen | Symbol::EqualRepeatOpen)
}

pub fn is_high(symbol: Symbol) -> bool
    ensures { result ≡ is_high symbol }
{
    matches!(symbol, Symbol::Number | Symbol::Inf)
}

/// Whether a repetition of anything begins with the symbol.
pub fn is_times(symbol: Symbol) -> bool
    ensures { result ≡ is_times symbol }
{
    symbol == Symbol::RepeatOpen || symbol == Symbol::RepeatPlus
}

/// Whether a repetition begins with the symbol.
pub fn is_rep(symbol: Symbol) -> bool
    ensures { result ≡ is_rep symbol }
{
    is_times(symbol) || is_pick(symbol)
}
