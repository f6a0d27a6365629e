//! What the grammar sees of each token of a text.

ghost use Rattle.std.specs.Prelude.{◌≡◌, ◌∷◌, ◌++◌, [], ◌+◌, ◌<◌, ◌≤◌, ◌^◌, ◌&&◌, All};
ghost use Rattle.std.specs.Prelude.{Some, length, IfOk, slice_index_or, nat_eq, true};
ghost use Rattle.std.specs.Cmp.Lexicographic.{pointwise};
ghost use Rattle.indexmap.specs.IndexMap.{Updates};
ghost use Rattle.psl_lexer.specs.Order.{LiesWithin};
ghost use Rattle.psl_grammar.specs.Symbols.{symbol_at, is_name};
ghost use Rattle.psl_grammar.specs.Units.{Known, meaning_of, symbol_in, outside, no_token, bytes_of};
ghost use Rattle.psl_parser.specs.Seen.{is_semicolon, declared_as, with_declared, known_before, seen_to, seen};
ghost use Rattle.psl_parser.specs.inner.Names.{is_name_kind, IsPart, Knows, AreKnown};

use crate::items::behind;
use crate::marks::symbol_at;
use indexmap::IndexMap;
use psl_grammar::Symbol;
use psl_lexer::{Kind, Token};
use psl_model::Name;
use std::alloc::{AllocError, Global};

/// What is carried along up to a token.
#[derive(Drop)]
pub struct Names {
    /// The names that items before declared, each with what it is.
    known: IndexMap<Name, Symbol>,
    /// How many braces are open.
    braces: usize,
    /// How many tokens of the item stand before.
    own: usize,
}

fn token_at(text: &[u8], tokens: &[Token], place: usize) -> Token
    requires within { All (LiesWithin text.now) tokens.now }
    ensures same { result ≡ slice_index_or tokens.now place no_token }
    ensures part { IsPart text.now result }
{
    match tokens.get(place) {
        Some(token) => *token,
        None => Token {
            kind: Kind::Text,
            start: 0,
            end: 0,
        },
    }
}

fn name_of(alloc: Global, text: &[u8], token: Token) -> Result<Name, AllocError>
    requires part { IsPart text.now token }
    ensures { IfOk result (λ name. name ≡ bytes_of text.now token) }
{
    Name::new(alloc, &text[token.start as usize..token.end as usize])
}

impl Names {
    fn new(alloc: Global) -> Names
        ensures known { Knows [] result }
        ensures braces { result.braces ≡ 0 }
        ensures own { result.own ≡ 0 }
    {
        Names {
            known: IndexMap::new(alloc),
            braces: 0,
            own: 0,
        }
    }

    fn meaning(&self, name: &Name) -> Symbol
        ensures { (known : Known) → Knows known self.now → result ≡ meaning_of known name.now }
    {
        self.known.get(name).copied().unwrap_or(Symbol::Name)
    }
}

fn is_name_token(token: Token) -> bool
    ensures { result ≡ is_name_kind token.kind }
{
    matches!(token.kind, Kind::Name)
}

/// The symbol of a name.
#[tactic(auto, using(crate::proofs::Known::named_is))]
fn symbol_of_name(
    alloc: Global,
    text: &[u8],
    names: &Names,
    token: Token,
) -> Result<Symbol, AllocError>
    requires part { IsPart text.now token }
    requires named { is_name_kind token.kind ≡ true }
    ensures { (known : Known) → Knows known names.now
        → IfOk result (λ symbol. symbol ≡ symbol_in text.now known token) }
{
    match name_of(alloc, text, token) {
        Err(error) => Err(error),
        Ok(name) => Ok(names.meaning(&name)),
    }
}

/// The symbol of a token, which is `plain` where no name is declared.
#[tactic(auto, using(crate::proofs::Known::other_is))]
fn symbol_of(
    alloc: Global,
    text: &[u8],
    names: &Names,
    token: Token,
    plain: Symbol,
) -> Result<Symbol, AllocError>
    requires part { IsPart text.now token }
    requires plain { plain ≡ symbol_in text.now [] token }
    ensures { (known : Known) → Knows known names.now
        → IfOk result (λ symbol. symbol ≡ symbol_in text.now known token) }
{
    if is_name_token(token) {
        return symbol_of_name(alloc, text, names, token);
    }
    Ok(plain)
}

fn is_name(symbol: Symbol) -> bool
    ensures { result ≡ is_name symbol }
{
    matches!(
        symbol,
        Symbol::Name | Symbol::SequenceName | Symbol::PropertyName
    )
}

fn is_semicolon(symbol: Symbol) -> bool
    ensures { result ≡ is_semicolon symbol }
{
    matches!(symbol, Symbol::Semicolon)
}

/// What an item that begins with the word declares its name as.
fn declared_as(word: Symbol) -> Option<Symbol>
    ensures { result ≡ declared_as word }
{
    match word {
        Symbol::Sequence => Some(Symbol::SequenceName),
        Symbol::Property => Some(Symbol::PropertyName),
        _ => None,
    }
}

fn put_name(
    known: IndexMap<Name, Symbol>,
    name: Name,
    meaning: Symbol,
) -> Result<IndexMap<Name, Symbol>, AllocError>
    ensures { IfOk result (λ all. Updates (pointwise nat_eq) known all name (Some meaning)) }
{
    let mut all = known;
    match all.insert(name, meaning) {
        Ok(_) => Ok(all),
        Err(_) => Err(AllocError),
    }
}

/// A name gets a meaning, also where it had another.
fn learn(names: Names, name: Name, meaning: Symbol) -> Result<Names, AllocError>
    ensures known { (known : Known) → Knows known names → IfOk result (Knows ((name, meaning) ∷ known)) }
    ensures braces { IfOk result (λ more. more.braces ≡ names.braces) }
    ensures own { IfOk result (λ more. more.own ≡ names.own) }
{
    let Names { known, braces, own } = names;
    match put_name(known, name, meaning) {
        Err(error) => Err(error),
        Ok(all) => Ok(Names {
            known: all,
            braces,
            own,
        }),
    }
}

/// The names that are known behind an item, whose first token is given.
fn with_declared(
    alloc: Global,
    text: &[u8],
    tokens: &[Token],
    plain: &[Symbol],
    names: Names,
    first: usize,
) -> Result<Names, AllocError>
    requires few { first < 2 ^ 32 }
    requires within { All (LiesWithin text.now) tokens.now }
    requires plain { plain.now ≡ outside text.now tokens.now }
    ensures known { (known : Known) → Knows known names → IfOk result (Knows (with_declared text.now tokens.now first
        (declared_as (symbol_at (outside text.now tokens.now) first)) known)) }
    ensures braces { IfOk result (λ more. more.braces ≡ names.braces) }
    ensures own { IfOk result (λ more. more.own ≡ names.own) }
{
    match declared_as(symbol_at(plain, first)) {
        None => Ok(names),
        Some(meaning) => {
            if !is_name(symbol_at(plain, first + 1)) {
                return Ok(names);
            }
            match name_of(alloc, text, token_at(text, tokens, first + 1)) {
                Err(error) => Err(error),
                Ok(name) => learn(names, name, meaning),
            }
        }
    }
}

/// Whether a token ends an item, where so many braces are open before it.
fn ends_item(symbol: Symbol, braces: usize) -> bool
    ensures { result ≡ (is_semicolon symbol && nat_eq braces 1) }
{
    is_semicolon(symbol) && braces == 1
}

/// The names that are known behind a token.
#[tactic(auto, using(crate::proofs::Known::declared_more, crate::proofs::Known::undeclared_more))]
fn behind_token(
    alloc: Global,
    text: &[u8],
    tokens: &[Token],
    plain: &[Symbol],
    names: Names,
    place: usize,
) -> Result<Names, AllocError>
    requires few { place < 1048576 }
    requires within { All (LiesWithin text.now) tokens.now }
    requires plain { plain.now ≡ outside text.now tokens.now }
    requires known { AreKnown text.now tokens.now place names }
    ensures { IfOk result (Knows (known_before text.now tokens.now (place + 1))) }
{
    let symbol = symbol_at(plain, place);
    if !ends_item(symbol, names.braces) {
        return Ok(names);
    }
    let first = place.saturating_sub(names.own);
    let more = with_declared(alloc, text, tokens, plain, names, first)?;
    Ok(more)
}

/// What is carried on behind a token.
fn moved(
    alloc: Global,
    text: &[u8],
    tokens: &[Token],
    plain: &[Symbol],
    names: Names,
    place: usize,
) -> Result<Names, AllocError>
    requires few { place < 1048576 }
    requires at { place < length tokens.now }
    requires within { All (LiesWithin text.now) tokens.now }
    requires plain { plain.now ≡ outside text.now tokens.now }
    requires known { AreKnown text.now tokens.now place names }
    ensures { IfOk result (AreKnown text.now tokens.now (place + 1)) }
{
    let symbol = symbol_at(plain, place);
    let item = behind(names.braces, names.own, symbol);
    let more = behind_token(alloc, text, tokens, plain, names, place)?;
    Ok(Names {
        known: more.known,
        braces: item.0,
        own: item.1,
    })
}

fn put(symbols: Vec<Symbol>, symbol: Symbol) -> Result<Vec<Symbol>, AllocError>
    ensures { IfOk result (λ all. all.items ≡ symbols.items ++ symbol ∷ []) }
{
    let mut all = symbols;
    match all.push(symbol) {
        Ok(()) => Ok(all),
        Err(_) => Err(AllocError),
    }
}

/// One more token is seen.
#[tactic(auto, using(crate::proofs::Known::plain_at))]
fn see(
    alloc: Global,
    text: &[u8],
    tokens: &[Token],
    plain: &[Symbol],
    names: &Names,
    symbols: Vec<Symbol>,
    place: usize,
) -> Result<Vec<Symbol>, AllocError>
    requires at { place < length tokens.now }
    requires within { All (LiesWithin text.now) tokens.now }
    requires plain { plain.now ≡ outside text.now tokens.now }
    requires known { AreKnown text.now tokens.now place names.now }
    requires symbols { symbols.items ≡ seen_to text.now tokens.now place }
    ensures { IfOk result (λ all. all.items ≡ seen_to text.now tokens.now (place + 1)) }
{
    let token = token_at(text, tokens, place);
    let symbol = symbol_of(alloc, text, names, token, symbol_at(plain, place))?;
    let all = put(symbols, symbol)?;
    Ok(all)
}

/// What the grammar sees of each token, where `plain` is what it sees of tokens where no name is declared.
pub fn seen(
    alloc: Global,
    text: &[u8],
    tokens: &[Token],
    plain: &[Symbol],
) -> Result<Vec<Symbol>, AllocError>
    requires few { length tokens.now ≤ 1048576 }
    requires within { All (LiesWithin text.now) tokens.now }
    requires plain { plain.now ≡ outside text.now tokens.now }
    ensures { IfOk result (λ symbols. symbols.items ≡ seen text.now tokens.now) }
{
    let mut symbols = Vec::new(alloc);
    let mut names = Names::new(alloc);
    let count = tokens.len();
    'tokens: for place in 0..count {
        match see(alloc, text, tokens, plain, &names, symbols, place) {
            Err(error) => return Err(error),
            Ok(more) => {
                symbols = more;
            }
        }
        match moved(alloc, text, tokens, plain, names, place) {
            Err(error) => return Err(error),
            Ok(next) => {
                names = next;
            }
        }
    }
    Ok(symbols)
}
