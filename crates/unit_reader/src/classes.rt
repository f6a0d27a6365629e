//! What the grammar sees of tokens, and how names get their meanings.

ghost use Rattle.std.specs.Prelude.{◌≡◌, ◌<◌, ◌≤◌, ◌∷◌, All, length, map, set, slice_index_or, IfOk, IfErr};
ghost use Rattle.psl_lexer.specs.Order.{LiesWithin};
ghost use Rattle.unit_reader.specs.declared.errors.ParseError.TheVariants.{OutOfMemory};
ghost use Rattle.psl_grammar.specs.Units.{Known, word_symbol, mark_symbol, kind_symbol, bytes_of};
ghost use Rattle.psl_grammar.specs.Units.{symbols_in, no_token, name_at, learned};
ghost use Rattle.unit_reader.specs.inner.Namesakes.{AreNoted, has_before};

use crate::errors::ParseError;
use crate::namesakes::Namesakes;
use crate::symbols::{is_at, is_name, symbol_at};
use psl_grammar::Symbol;
use psl_lexer::{Key, Kind, Mark, Token};
use psl_model::Name;
use std::alloc::{AllocError, Global};

fn word_symbol(word: Key) -> Symbol
    ensures { result ≡ word_symbol word }
{
    match word {
        Key::Vunit => Symbol::Vunit,
        Key::Wire => Symbol::Wire,
        Key::Default => Symbol::Default,
        Key::Clock => Symbol::Clock,
        Key::Posedge => Symbol::Posedge,
        Key::Sequence => Symbol::Sequence,
        Key::Property => Symbol::Property,
        Key::Assert => Symbol::Assert,
        Key::Report => Symbol::Report,
        Key::Always | Key::Never => Symbol::Always,
        Key::True | Key::False => Symbol::Literal,
        Key::Inf => Symbol::Inf,
        Key::Abort => Symbol::Abort,
        Key::Within => Symbol::Within,
        Key::EventuallyStrong => Symbol::EventuallyStrong,
        Key::Until
        | Key::UntilStrong
        | Key::UntilOverlapping
        | Key::UntilStrongOverlapping
        | Key::Before
        | Key::BeforeStrong
        | Key::BeforeOverlapping
        | Key::BeforeStrongOverlapping => Symbol::Until,
        Key::Next | Key::NextStrong => Symbol::Next,
        Key::NextA | Key::NextAStrong | Key::NextE | Key::NextEStrong => Symbol::NextRange,
        Key::NextEvent | Key::NextEventStrong => Symbol::Event,
        Key::NextEventA | Key::NextEventAStrong | Key::NextEventE | Key::NextEventEStrong =>
            Symbol::EventRange,
    }
}

fn mark_symbol(mark: Mark) -> Symbol
    ensures { result ≡ mark_symbol mark }
{
    match mark {
        Mark::OpenBrace => Symbol::OpenBrace,
        Mark::CloseBrace => Symbol::CloseBrace,
        Mark::OpenParenthesis => Symbol::OpenParenthesis,
        Mark::CloseParenthesis => Symbol::CloseParenthesis,
        Mark::OpenBracket => Symbol::OpenBracket,
        Mark::CloseBracket => Symbol::CloseBracket,
        Mark::RepeatOpen => Symbol::RepeatOpen,
        Mark::RepeatPlus => Symbol::RepeatPlus,
        Mark::GotoOpen => Symbol::GotoOpen,
        Mark::EqualRepeatOpen => Symbol::EqualRepeatOpen,
        Mark::Semicolon => Symbol::Semicolon,
        Mark::Colon => Symbol::Colon,
        Mark::Comma => Symbol::Comma,
        Mark::Exclamation => Symbol::Exclamation,
        Mark::Tilde => Symbol::Tilde,
        Mark::And => Symbol::And,
        Mark::AndAnd => Symbol::AndAnd,
        Mark::Or => Symbol::Or,
        Mark::OrOr => Symbol::OrOr,
        Mark::Caret => Symbol::Caret,
        Mark::EqualEqual | Mark::NotEqual => Symbol::Equality,
        Mark::Less | Mark::LessEqual | Mark::Greater | Mark::GreaterEqual => Symbol::Order,
        Mark::ShiftLeft | Mark::ShiftRight => Symbol::Shift,
        Mark::Plus | Mark::Minus => Symbol::Sum,
        Mark::Question => Symbol::Question,
        Mark::Arrow => Symbol::Arrow,
        Mark::DoubleArrow => Symbol::DoubleArrow,
        Mark::SuffixOverlapping | Mark::SuffixNext => Symbol::Suffix,
        Mark::Equal => Symbol::Equal,
    }
}

/// What the grammar sees of a token of a kind, where a name means this.
fn kind_symbol(meaning: Symbol, kind: Kind) -> Symbol
    ensures { result ≡ kind_symbol meaning kind }
{
    match kind {
        Kind::Word(word) => word_symbol(word),
        Kind::Mark(mark) => mark_symbol(mark),
        Kind::Name => meaning,
        Kind::Number => Symbol::Number,
        Kind::Sized => Symbol::Literal,
        Kind::Text => Symbol::Text,
    }
}

/// What the grammar sees of tokens, where no name is declared.
pub fn classify(alloc: Global, tokens: &[Token]) -> Result<Vec<Symbol>, AllocError>
    ensures { IfOk result (λ symbols. symbols.items ≡ map (λ t. kind_symbol Symbol.Name t.kind) tokens.now) }
{
    tokens
        .iter()
        .map(|token| kind_symbol(Symbol::Name, token.kind))
        .collect(alloc)
}

pub fn token_at(tokens: &[Token], place: u32) -> Token
    ensures { result ≡ slice_index_or tokens.now place no_token }
{
    match tokens.get(place as usize) {
        Some(token) => *token,
        None => Token {
            kind: Kind::Text,
            start: 0,
            end: 0,
        },
    }
}

fn token_bytes(text: &[u8], token: Token) -> &[u8]
    requires within { LiesWithin text.now token }
    ensures { result.now ≡ bytes_of text.now token }
{
    &text[token.start as usize..token.end as usize]
}

/// The bytes of a token.
pub fn bytes_at<'a>(text: &'a [u8], tokens: &[Token], place: u32) -> &'a [u8]
    requires within { All (LiesWithin text.now) tokens.now }
    requires place { place < length tokens.now }
    ensures { result.now ≡ name_at text.now tokens.now place }
{
    token_bytes(text, token_at(tokens, place))
}

/// Puts a symbol at a place.
fn with_symbol(symbols: Vec<Symbol>, place: u32, symbol: Symbol) -> Vec<Symbol>
    requires { place < length symbols.items }
    ensures { result.items ≡ set symbols.items place symbol }
{
    let mut all = symbols;
    all[place as usize] = symbol;
    all
}

/// Whether the token right before a place has a meaning, or the place is the first one.
fn has_before(symbols: &[Symbol], place: u32, meaning: Symbol) -> bool
    ensures { result ≡ has_before symbols.now place meaning }
{
    if place == 0 {
        return true;
    }
    is_at(symbols, place - 1, meaning)
}

/// A name gets a meaning: the tokens with it are gone through from the last one on.
fn learn(
    text: &[u8],
    tokens: &[Token],
    names: &Namesakes,
    symbols: Vec<Symbol>,
    name: &Name,
    meaning: Symbol,
) -> Vec<Symbol>
    requires few { length tokens.now ≤ 1048576 }
    requires many { length symbols.items ≡ length tokens.now }
    requires noted { AreNoted text.now tokens.now (length tokens.now) names.now }
    ensures { (known : Known) → symbols.items ≡ symbols_in text.now known tokens.now
        → result.items ≡ symbols_in text.now ((name.now, meaning) ∷ known) tokens.now }
{
    let latest = names.last(name);
    if has_before(&symbols, latest, meaning) {
        return symbols;
    }
    let mut all = symbols;
    let mut above = latest;
    'above: while 0 < above {
        let place = above - 1;
        all = with_symbol(all, place, meaning);
        above = names.before(place);
    }
    all
}

/// A name gets a meaning, also where it had another.
#[tactic(auto, using(crate::proofs::Learning::name_within))]
pub fn learn_name(
    alloc: Global,
    text: &[u8],
    tokens: &[Token],
    names: &Namesakes,
    symbols: Vec<Symbol>,
    name: u32,
    meaning: Symbol,
) -> Result<Vec<Symbol>, ParseError>
    requires few { length tokens.now ≤ 1048576 }
    requires within { All (LiesWithin text.now) tokens.now }
    requires many { length symbols.items ≡ length tokens.now }
    requires noted { AreNoted text.now tokens.now (length tokens.now) names.now }
    ensures learned { (known : Known) → symbols.items ≡ symbols_in text.now known tokens.now
        → IfOk result (λ all. all.items ≡ symbols_in text.now (learned text.now tokens.now known name meaning)
        tokens.now) }
    ensures full { IfErr result (λ error. error ≡ OutOfMemory) }
{
    if !is_name(symbol_at(&symbols, name)) {
        return Ok(symbols);
    }
    if name as usize >= tokens.len() {
        return Ok(symbols);
    }
    match Name::new(alloc, bytes_at(text, tokens, name)) {
        Ok(bytes) => Ok(learn(text, tokens, names, symbols, &bytes, meaning)),
        Err(_) => Err(ParseError::OutOfMemory),
    }
}
