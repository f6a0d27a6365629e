//! Which tokens have the same name.

ghost use Rattle.std.specs.Prelude.{◌≡◌, ◌<◌, ◌≤◌, ◌+◌, ◌++◌, ◌∷◌, [], All, Some, true, false, nat_eq, length};
ghost use Rattle.std.specs.Prelude.{unwrap_or, slice_index_or};
ghost use Rattle.std.specs.Prelude.{IfOk, IfErr};
ghost use Rattle.std.specs.Cmp.Lexicographic.{pointwise};
ghost use Rattle.indexmap.specs.IndexMap.{get, Updates};
ghost use Rattle.psl_lexer.specs.Order.{LiesWithin};
ghost use Rattle.unit_reader.specs.declared.errors.ParseError.TheVariants.{OutOfMemory};
ghost use Rattle.psl_grammar.specs.Units.{name_at, no_token};
ghost use Rattle.unit_reader.specs.inner.Namesakes.{is_name_kind, named_at, AreNoted};

use crate::classes::{bytes_at, token_at};
use crate::errors::ParseError;
use indexmap::IndexMap;
use psl_lexer::{Kind, Token};
use psl_model::Name;
use std::alloc::Global;

/// For each name of some tokens the place right behind the latest token with that name before it, and 0 where there is
/// none.
#[derive(Drop)]
pub struct Namesakes {
    /// By the name's place. A token that is no name has any.
    earlier: Vec<u32>,
    /// By the name, before the end of the tokens.
    latest: IndexMap<Name, u32>,
}

/// Puts a name's last place into the map, and gives what was there, or 0.
fn note_name(
    latest: IndexMap<Name, u32>,
    name: Name,
    place: u32,
) -> Result<(IndexMap<Name, u32>, u32), ParseError>
    ensures given { IfOk result (λ noted. noted.1 ≡ unwrap_or (get (pointwise nat_eq) latest name) 0) }
    ensures put { IfOk result (λ noted. Updates (pointwise nat_eq) latest noted.0 name (Some place)) }
    ensures memory { IfErr result (λ error. error ≡ OutOfMemory) }
{
    let mut all = latest;
    match all.insert(name, place) {
        Ok(old) => Ok((all, old.unwrap_or(0))),
        Err(_) => Err(ParseError::OutOfMemory),
    }
}

fn put(places: Vec<u32>, place: u32) -> Result<Vec<u32>, ParseError>
    ensures put { IfOk result (λ all. all.items ≡ places.items ++ place ∷ []) }
    ensures memory { IfErr result (λ error. error ≡ OutOfMemory) }
{
    let mut all = places;
    match all.push(place) {
        Ok(()) => Ok(all),
        Err(_) => Err(ParseError::OutOfMemory),
    }
}

fn named(alloc: Global, text: &[u8], tokens: &[Token], place: u32) -> Result<Name, ParseError>
    requires within { All (LiesWithin text.now) tokens.now }
    requires place { place < length tokens.now }
    ensures same { IfOk result (λ name. name ≡ name_at text.now tokens.now place) }
    ensures memory { IfErr result (λ error. error ≡ OutOfMemory) }
{
    match Name::new(alloc, bytes_at(text, tokens, place)) {
        Ok(name) => Ok(name),
        Err(_) => Err(ParseError::OutOfMemory),
    }
}

fn is_name_kind(kind: Kind) -> bool
    ensures { result ≡ is_name_kind kind }
{
    matches!(kind, Kind::Name)
}

/// Notes a token that is a name.
fn note_name_at(
    alloc: Global,
    text: &[u8],
    tokens: &[Token],
    names: Namesakes,
    place: u32,
) -> Result<Namesakes, ParseError>
    requires few { length tokens.now ≤ 1048576 }
    requires within { All (LiesWithin text.now) tokens.now }
    requires place { place < length tokens.now }
    requires name { is_name_kind (slice_index_or tokens.now place no_token).kind ≡ true }
    requires noted { AreNoted text.now tokens.now place names }
    ensures noted { IfOk result (AreNoted text.now tokens.now (place + 1)) }
    ensures memory { IfErr result (λ error. error ≡ OutOfMemory) }
{
    let Namesakes { earlier, latest } = names;
    let name = named(alloc, text, tokens, place)?;
    let (latest, before) = note_name(latest, name, place + 1)?;
    let earlier = put(earlier, before)?;
    Ok(Namesakes { earlier, latest })
}

/// Notes a token that is no name.
fn note_other(
    text: &[u8],
    tokens: &[Token],
    names: Namesakes,
    place: u32,
) -> Result<Namesakes, ParseError>
    requires place { place < length tokens.now }
    requires other { is_name_kind (slice_index_or tokens.now place no_token).kind ≡ false }
    requires noted { AreNoted text.now tokens.now place names }
    ensures noted { IfOk result (AreNoted text.now tokens.now (place + 1)) }
    ensures memory { IfErr result (λ error. error ≡ OutOfMemory) }
{
    let Namesakes { earlier, latest } = names;
    let earlier = put(earlier, 0)?;
    Ok(Namesakes { earlier, latest })
}

/// Notes one more token.
fn note(
    alloc: Global,
    text: &[u8],
    tokens: &[Token],
    names: Namesakes,
    place: u32,
) -> Result<Namesakes, ParseError>
    requires few { length tokens.now ≤ 1048576 }
    requires within { All (LiesWithin text.now) tokens.now }
    requires place { place < length tokens.now }
    requires noted { AreNoted text.now tokens.now place names }
    ensures noted { IfOk result (AreNoted text.now tokens.now (place + 1)) }
    ensures memory { IfErr result (λ error. error ≡ OutOfMemory) }
{
    if is_name_kind(token_at(tokens, place).kind) {
        return note_name_at(alloc, text, tokens, names, place);
    }
    note_other(text, tokens, names, place)
}

fn nothing(alloc: Global, text: &[u8], tokens: &[Token]) -> Namesakes
    ensures { AreNoted text.now tokens.now 0 result }
{
    Namesakes {
        earlier: Vec::new(alloc),
        latest: IndexMap::new(alloc),
    }
}

/// Notes all tokens.
pub fn note_names(alloc: Global, text: &[u8], tokens: &[Token]) -> Result<Namesakes, ParseError>
    requires few { length tokens.now ≤ 1048576 }
    requires within { All (LiesWithin text.now) tokens.now }
    ensures noted { IfOk result (AreNoted text.now tokens.now (length tokens.now)) }
    ensures memory { IfErr result (λ error. error ≡ OutOfMemory) }
{
    let mut names = nothing(alloc, text, tokens);
    let count = tokens.len() as u32;
    'tokens: for place in 0..count {
        match note(alloc, text, tokens, names, place) {
            Ok(more) => {
                names = more;
            }
            Err(_) => return Err(ParseError::OutOfMemory),
        }
    }
    Ok(names)
}

impl Namesakes {
    /// For the name at a place.
    pub fn before(&self, place: u32) -> u32
        ensures { result ≡ slice_index_or self.now.earlier.items place 0 }
    {
        match self.earlier.get(place as usize) {
            Some(behind) => *behind,
            None => 0,
        }
    }

    /// For a name behind all tokens.
    pub fn last(&self, name: &Name) -> u32
        ensures { result ≡ unwrap_or (get (pointwise nat_eq) self.now.latest name.now) 0 }
    {
        self.latest.get(name).copied().unwrap_or(0)
    }
}
