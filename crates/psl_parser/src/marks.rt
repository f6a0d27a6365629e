//! What symbols do to the phrases that are open where they stand.

ghost use Rattle.std.specs.Prelude.{◌≡◌, ◌+◌, ◌≤◌, ◌<◌, ◌^◌};
ghost use Rattle.psl_grammar.specs.Symbols.{symbol_at, may_join, begins_sequence};
ghost use Rattle.psl_parser.specs.Marks.{opens_bracket, closes_bracket, ends_operand, loose, looseness, is_next};
ghost use Rattle.psl_parser.specs.Marks.{is_event, may_begin};
ghost use Rattle.psl_parser.specs.Marks.{is_open_brace, is_open_parenthesis, is_close_parenthesis, is_exclamation};
ghost use Rattle.psl_parser.specs.Marks.{is_question, is_colon, is_number, is_open_bracket, is_close_bracket};

use psl_grammar::Symbol;

pub fn symbol_at(symbols: &[Symbol], place: usize) -> Symbol
    ensures { result ≡ symbol_at symbols.now place }
{
    match symbols.get(place) {
        Some(symbol) => *symbol,
        None => Symbol::End,
    }
}

pub fn opens_bracket(symbol: Symbol) -> bool
    ensures { result ≡ opens_bracket symbol }
{
    matches!(
        symbol,
        Symbol::OpenParenthesis
            | Symbol::OpenBrace
            | Symbol::OpenBracket
            | Symbol::RepeatOpen
            | Symbol::GotoOpen
            | Symbol::EqualRepeatOpen
    )
}

pub fn closes_bracket(symbol: Symbol) -> bool
    ensures { result ≡ closes_bracket symbol }
{
    matches!(
        symbol,
        Symbol::CloseParenthesis | Symbol::CloseBrace | Symbol::CloseBracket
    )
}

pub fn ends_operand(symbol: Symbol) -> bool
    ensures { result ≡ ends_operand symbol }
{
    matches!(
        symbol,
        Symbol::Name
            | Symbol::SequenceName
            | Symbol::PropertyName
            | Symbol::Number
            | Symbol::Literal
            | Symbol::RepeatPlus
            | Symbol::CloseParenthesis
            | Symbol::CloseBrace
            | Symbol::CloseBracket
    )
}

/// Whether a phrase begins with the symbol in some place.
pub fn may_begin(symbol: Symbol) -> bool
    ensures { result ≡ may_begin symbol }
{
    matches!(
        symbol,
        Symbol::Name
            | Symbol::SequenceName
            | Symbol::PropertyName
            | Symbol::Number
            | Symbol::Literal
            | Symbol::RepeatOpen
            | Symbol::RepeatPlus
            | Symbol::OpenParenthesis
            | Symbol::OpenBrace
            | Symbol::Exclamation
            | Symbol::Tilde
            | Symbol::And
            | Symbol::Caret
            | Symbol::Or
            | Symbol::Always
            | Symbol::EventuallyStrong
            | Symbol::Next
            | Symbol::NextRange
            | Symbol::Event
            | Symbol::EventRange
    )
}

fn loose(symbol: Symbol) -> u32
    ensures { result ≡ loose symbol }
{
    match symbol {
        Symbol::OpenBracket | Symbol::Exclamation => 0,
        Symbol::Sum => 1,
        Symbol::Shift => 2,
        Symbol::Order => 3,
        Symbol::Equality => 4,
        Symbol::And => 5,
        Symbol::Caret => 6,
        Symbol::Or => 7,
        Symbol::AndAnd => 8,
        Symbol::OrOr => 9,
        Symbol::Question => 10,
        Symbol::Until => 12,
        Symbol::Suffix => 13,
        Symbol::Arrow | Symbol::DoubleArrow => 14,
        Symbol::Semicolon | Symbol::Report => 15,
        _ => 11,
    }
}

fn may_join(symbol: Symbol) -> bool
    ensures { result ≡ may_join symbol }
{
    matches!(symbol, Symbol::And | Symbol::AndAnd | Symbol::Or)
}

fn begins_sequence(symbol: Symbol) -> bool
    ensures { result ≡ begins_sequence symbol }
{
    matches!(
        symbol,
        Symbol::OpenBrace | Symbol::RepeatOpen | Symbol::RepeatPlus | Symbol::SequenceName
    )
}

/// How loosely the symbol at a place joins an operand before it with what follows.
pub fn looseness(symbols: &[Symbol], place: usize) -> u32
    requires few { place < 2 ^ 32 }
    ensures { result ≡ looseness symbols.now place }
{
    let symbol = symbol_at(symbols, place);
    if may_join(symbol) && begins_sequence(symbol_at(symbols, place + 1)) {
        return 11;
    }
    loose(symbol)
}

pub fn is_open_brace(symbol: Symbol) -> bool
    ensures { result ≡ is_open_brace symbol }
{
    matches!(symbol, Symbol::OpenBrace)
}

pub fn is_open_parenthesis(symbol: Symbol) -> bool
    ensures { result ≡ is_open_parenthesis symbol }
{
    matches!(symbol, Symbol::OpenParenthesis)
}

pub fn is_close_parenthesis(symbol: Symbol) -> bool
    ensures { result ≡ is_close_parenthesis symbol }
{
    matches!(symbol, Symbol::CloseParenthesis)
}

pub fn is_exclamation(symbol: Symbol) -> bool
    ensures { result ≡ is_exclamation symbol }
{
    matches!(symbol, Symbol::Exclamation)
}

pub fn is_question(symbol: Symbol) -> bool
    ensures { result ≡ is_question symbol }
{
    matches!(symbol, Symbol::Question)
}

pub fn is_colon(symbol: Symbol) -> bool
    ensures { result ≡ is_colon symbol }
{
    matches!(symbol, Symbol::Colon)
}

pub fn is_number(symbol: Symbol) -> bool
    ensures { result ≡ is_number symbol }
{
    matches!(symbol, Symbol::Number)
}

pub fn is_open_bracket(symbol: Symbol) -> bool
    ensures { result ≡ is_open_bracket symbol }
{
    matches!(symbol, Symbol::OpenBracket)
}

pub fn is_close_bracket(symbol: Symbol) -> bool
    ensures { result ≡ is_close_bracket symbol }
{
    matches!(symbol, Symbol::CloseBracket)
}

pub fn is_next(symbol: Symbol) -> bool
    ensures { result ≡ is_next symbol }
{
    matches!(symbol, Symbol::Next | Symbol::NextRange)
}

pub fn is_event(symbol: Symbol) -> bool
    ensures { result ≡ is_event symbol }
{
    matches!(symbol, Symbol::Event | Symbol::EventRange)
}
